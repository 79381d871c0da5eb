//! Worked examples of `IsFault` (`c_parse_spec`), with its table of kinds: of which kind the
//! first fault of a text is, and its offset.

ghost use Rattle.c_parse_spec.specs.declared.LeftOut.TheVariants as left_out;
ghost use Rattle.c_parse_spec.specs.declared.ParseFaultKind.TheVariants.{LeftOut, Unexpected};
ghost use Rattle.example_laws.specs.FaultSamples as samples;

/// `int (*p)(int);`. A bracket where a declared name is expected: a pointer to a function.
pub fn function_pointer_is_reported()
    ensures { samples.IsFaultAt samples.function_pointer 14 (LeftOut left_out.FunctionPointer) 4 }
{}

/// `int f(void){goto a;}`. The keyword `goto`.
pub fn goto_word_is_reported()
    ensures { samples.IsFaultAt samples.goto_word 20 (LeftOut left_out.Goto) 12 }
{}

/// `int f(void){a:;}`. A colon after a name that is a statement: a label of `goto`.
pub fn label_is_reported()
    ensures { samples.IsFaultAt samples.label 16 (LeftOut left_out.Goto) 13 }
{}

/// `struct s{int a:3;};`. A colon after a member: a bit-field.
pub fn bit_field_is_reported()
    ensures { samples.IsFaultAt samples.bit_field 19 (LeftOut left_out.BitField) 14 }
{}

/// `int f(void){a,b;}`. A comma after an expression statement: the comma operator.
pub fn comma_is_reported()
    ensures { samples.IsFaultAt samples.comma 17 (LeftOut left_out.Comma) 13 }
{}

/// `int f(void){a=1,b=2;}`. The same after an assignment.
pub fn comma_after_assignment_is_reported()
    ensures { samples.IsFaultAt samples.comma_after_assignment 21 (LeftOut left_out.Comma) 15 }
{}

/// `int f(void){f(1),b;}`. And after a call.
pub fn comma_after_call_is_reported()
    ensures { samples.IsFaultAt samples.comma_after_call 20 (LeftOut left_out.Comma) 16 }
{}

/// `int f(void){a=1+f(2);}`. A bracket after an operand: a call inside an expression.
pub fn call_in_operand_is_reported()
    ensures { samples.IsFaultAt samples.call_in_operand 22 (LeftOut left_out.Call) 17 }
{}

/// `int f(void){f(1)+2;}`. An operator after a call: the call is an operand.
pub fn operator_after_call_is_reported()
    ensures { samples.IsFaultAt samples.operator_after_call 20 (LeftOut left_out.Call) 16 }
{}

/// `int f(void){return g()*2;}`. The same after a call that is returned.
pub fn operator_after_returned_call_is_reported()
    ensures { samples.IsFaultAt samples.operator_after_returned_call 26 (LeftOut left_out.Call) 22 }
{}

/// `int a=b(1);`. A bracket after the initial value of a global: a call.
pub fn call_in_value_is_reported()
    ensures { samples.IsFaultAt samples.call_in_value 11 (LeftOut left_out.Call) 7 }
{}

/// `int f(int a,...);`. Three dots: parameters that are not named.
pub fn dots_are_reported()
    ensures { samples.IsFaultAt samples.dots 17 (LeftOut left_out.Variadic) 12 }
{}

/// `int f(;`. A semicolon where a parameter is expected: no part of C that is left out.
pub fn missing_parameter_is_reported()
    ensures { samples.IsFaultAt samples.missing_parameter 7 Unexpected 6 }
{}

/// `int f(void){return 1`. The end where a semicolon is expected.
pub fn missing_end_is_reported()
    ensures { samples.IsFaultAt samples.missing_end 20 Unexpected 20 }
{}
