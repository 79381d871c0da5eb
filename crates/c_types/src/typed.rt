//! The typed core of a unit, and look-ups in it.

ghost use Rattle.std.specs.Prelude.{◌≡◌, bytes_eq, option_map};
ghost use Rattle.std.specs.Map.{lookup};
ghost use Rattle.c_token_spec.specs.Words.{entry_of};
ghost use Rattle.c_types_spec.specs.Units as units;
ghost use Rattle.c_types_layout.specs.Structs.{structs_of};
ghost use Rattle.c_types_layout.specs.Types.{type_of};
ghost use Rattle.c_types_scope.specs.Meanings.{signature_of};
ghost use Rattle.c_types.specs.Typed.{AreDistinct, body_in, body_of_name, counts_in, counts_of};
ghost use Rattle.c_types.specs.Typed.{function_in, global_at, global_in, global_of, typed_of};

use c_types_core::action::Action;
pub use c_types_core::fault::TypeFault;
use c_types_layout::structs::Definition;
use c_types_layout::types::CType;
use c_types_scope::meaning::{Meaning, Signature};
use c_types_spec::Scalar;
use indexmap::IndexMap;

/// The types of values that a call of a function gives it, and of its result, or none.
#[derive(Drop)]
pub struct FunctionType {
    /// The types of the parameters in order.
    pub parameters: Vec<Scalar>,
    /// The type of the result, or none.
    pub returned: Option<Scalar>,
}

/// A function with a body.
#[derive(Drop)]
pub struct Body<'a> {
    /// Its name.
    pub name: &'a [u8],
    /// Its type.
    pub signature: Box<FunctionType>,
    /// The types of its locals, the parameters first.
    pub locals: Vec<Scalar>,
    /// How many loops it has.
    pub loops: usize,
    /// How many calls it has.
    pub calls: usize,
    /// The globals that its body names, under `sizeof` too, as often as it names them.
    pub mentions: Vec<&'a [u8]>,
    /// What it does.
    pub action: Box<Action<'a>>,
}

/// How many parameters, loops and calls a function with a body has.
#[derive(Clone, Copy)]
pub struct Counts {
    /// Parameters.
    pub params: usize,
    /// Loops, numbered from 0 in the order of the text.
    pub loops: usize,
    /// Calls, numbered from 0 in the order of the text.
    pub calls: usize,
}

/// The typed core of a unit.
#[derive(Drop)]
pub struct Typed<'a> {
    /// What the names of the file scope mean, in the order of their first declarations.
    pub names: IndexMap<&'a [u8], Meaning>,
    /// The structs by their numbers.
    pub structs: Vec<Definition<'a>>,
    /// The functions with a body by their names, in the order of their definitions.
    pub bodies: IndexMap<&'a [u8], Body<'a>>,
}

/// How many parameters, loops and calls a body has.
fn counts_by(body: &Body<'_>) -> Counts
    ensures { counts_of result ≡ counts_in (body_of_name body.now.name.now body.now) }
{
    Counts {
        params: body.signature.parameters.len(),
        loops: body.loops,
        calls: body.calls,
    }
}

/// The types of a function, where a name means one.
fn signature_in(meaning: &Meaning) -> Option<&Signature>
    ensures { option_map (λ s. units.function_type (signature_of s.now)) result ≡ function_in
        meaning.now }
{
    match meaning {
        Meaning::Function(signature, _) => Some(signature),
        Meaning::Local(_, _) | Meaning::Object(_) => None,
        Meaning::Typedef(_) | Meaning::Enumerator(_) => None,
    }
}

/// The type of a global, where a name means one.
fn object_in<'b>(structs: &[Definition<'_>], name: &[u8], meaning: &'b Meaning) -> Option<&'b CType>
    ensures { option_map (λ t. global_of name.now (units.global_size (structs_of
        structs.now) (type_of t.now))) result
        ≡ global_at (structs_of structs.now) name.now meaning.now }
{
    match meaning {
        Meaning::Object(of) => Some(of),
        Meaning::Local(_, _) | Meaning::Function(_, _) => None,
        Meaning::Typedef(_) | Meaning::Enumerator(_) => None,
    }
}

impl<'a> Typed<'a> {
    /// The body of the function of a name; none where it has none.
    pub fn body(&self, name: &[u8]) -> Option<&Body<'a>>
        ensures { option_map (λ b. body_of_name name.now b.now) result ≡ body_in (typed_of
            self.now).bodies name.now }
    {
        self.bodies.get(name)
    }

    /// How many parameters, loops and calls the function of a name has; none exactly where it has
    /// no body.
    pub fn counts(&self, name: &[u8]) -> Option<Counts>
        ensures { option_map counts_of result ≡ option_map counts_in (body_in (typed_of
            self.now).bodies name.now) }
    {
        match self.body(name) {
            Some(body) => Some(counts_by(body)),
            None => None,
        }
    }

    /// What a name of the file scope means, or none. Each name is there once.
    #[tactic(auto, using(crate::proofs::Lookups::absent))]
    fn meaning(&self, name: &[u8]) -> Option<&Meaning>
        ensures found { option_map (λ m. m.now) result ≡ lookup (λ k. bytes_eq name.now k.now)
            self.now.names.entries }
        ensures distinct { AreDistinct self.now.names.entries }
    {
        if self.names.len() == 0 {
            return None;
        }
        self.names.get(name)
    }

    /// The types of the function of a name, or none.
    pub fn function(&self, name: &[u8]) -> Option<&Signature>
        ensures { option_map (λ s. units.function_type (signature_of s.now)) result ≡ entry_of
            (typed_of self.now).functions name.now }
    {
        match self.meaning(name) {
            Some(meaning) => signature_in(meaning),
            None => None,
        }
    }

    /// The type of the global of a name, or none; its size is what the type gives it.
    pub fn global(&self, name: &[u8]) -> Option<&CType>
        ensures { option_map (λ t. global_of name.now (units.global_size (structs_of
            self.now.structs.items) (type_of t.now))) result ≡ global_in (typed_of
            self.now).globals name.now }
    {
        match self.meaning(name) {
            Some(meaning) => object_in(self.structs.as_slice(), name, meaning),
            None => None,
        }
    }
}
