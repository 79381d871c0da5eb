//! Expressions and types (6.5 to 6.7).

ghost use Rattle.std.specs.Prelude.{◌≡◌, IfOk, option_map};
ghost use Rattle.c_syntax_spec.specs.Expression as tree;
ghost use Rattle.c_syntax.specs.Names.{name_of, storage_of};
ghost use Rattle.c_syntax.specs.Expressions.{expression_of, type_name_of, specifiers_of};
ghost use Rattle.c_syntax.specs.Expressions.{type_specifier_of};
ghost use Rattle.c_syntax.specs.Expressions.{member_of, constant_of, declarator_of, dimensions_of};
ghost use Rattle.c_syntax.specs.Expressions.{expressions_in, declarators_in, members_in};
ghost use Rattle.c_syntax.specs.Expressions.{constants_in, value_in};

use c_syntax_spec::{Access, BinaryOperator, IntegerType, UnaryOperator};
use c_token_spec::token::NumberType;
use std::alloc::{AllocError, Global};

/// A name, which borrows its bytes from the text.
#[derive(Clone, Copy)]
pub struct Name<'a> {
    /// Its bytes.
    pub spelling: &'a [u8],
    /// The offset of its first byte.
    pub offset: usize,
}

/// Which of `typedef` and `static` are among specifiers.
#[derive(Clone, Copy)]
pub struct Storage {
    /// `typedef` is among them.
    pub is_typedef: bool,
    /// `static` is among them.
    pub is_static: bool,
}

/// An expression. The last part of a variant is the offset of its operator, or of its first token.
#[derive(Drop)]
#[cycle(tree)]
pub enum Expression<'a> {
    /// `name`
    Named(Name<'a>),
    /// A number: its value and its type.
    Number(u64, NumberType, usize),
    /// A character constant: its value. Its type is `int`.
    Character(u8, usize),
    /// `(inner)`
    Bracketed(Box<Expression<'a>>, usize),
    /// `base[index]`
    Index(Box<Expression<'a>>, Box<Expression<'a>>, usize),
    /// `base.member`, `base->member`
    Member(Box<Expression<'a>>, Access, Name<'a>, usize),
    /// An operator before its operand.
    Unary(UnaryOperator, Box<Expression<'a>>, usize),
    /// `sizeof operand`
    Sizeof(Box<Expression<'a>>, usize),
    /// `sizeof (type)`
    SizeofType(Box<TypeName<'a>>, usize),
    /// `(type) operand`
    Cast(Box<TypeName<'a>>, Box<Expression<'a>>, usize),
    /// An operator between its operands.
    Binary(BinaryOperator, Box<Expression<'a>>, Box<Expression<'a>>, usize),
    /// `test ? first : second`
    Conditional(Box<Expression<'a>>, Box<Expression<'a>>, Box<Expression<'a>>, usize),
}

/// The type of a cast or of `sizeof` (6.7.7).
#[derive(Drop)]
#[cycle(tree)]
pub struct TypeName<'a> {
    /// The specifiers before the `*`.
    pub specifiers: Box<Specifiers<'a>>,
    /// How many `*` there are.
    pub pointers: usize,
}

/// The specifiers of a declaration or of a type (6.7).
#[derive(Drop)]
#[cycle(tree)]
pub struct Specifiers<'a> {
    /// The storage-class words.
    pub storage: Storage,
    /// The type specifier.
    pub base: Box<TypeSpecifier<'a>>,
    /// The offset of the first word.
    pub offset: usize,
}

/// A type specifier (6.7.2).
#[derive(Drop)]
#[cycle(tree)]
pub enum TypeSpecifier<'a> {
    /// `void`
    Void,
    /// An integer type that keywords name.
    Integer(IntegerType),
    /// A typedef name.
    TypedefName(Name<'a>),
    /// `struct tag`
    StructTag(Name<'a>),
    /// `struct tag { .. }`, with its declarations of members in order.
    Struct(Option<Name<'a>>, Vec<Box<Member<'a>>>),
    /// `enum tag`
    EnumTag(Name<'a>),
    /// `enum tag { .. }`, with its constants in order.
    Enum(Option<Name<'a>>, Vec<Box<Constant<'a>>>),
}

/// A declaration of members (6.7.2.1).
#[derive(Drop)]
#[cycle(tree)]
pub struct Member<'a> {
    /// Its specifiers.
    pub specifiers: Box<Specifiers<'a>>,
    /// Its declarators in order.
    pub declarators: Vec<Box<Declarator<'a>>>,
}

/// A declared name and its type, which is no function's (6.7.6).
#[derive(Drop)]
#[cycle(tree)]
pub struct Declarator<'a> {
    /// How many `*` are before the name.
    pub pointers: usize,
    /// The name.
    pub name: Name<'a>,
    /// The lengths of an array.
    pub dimensions: Box<Dimensions<'a>>,
}

/// The lengths of an array; no array has none (6.7.6.2).
#[derive(Drop)]
#[cycle(tree)]
pub struct Dimensions<'a> {
    /// It is an array whose first length is left out.
    pub is_open: bool,
    /// The lengths that are given, in order.
    pub lengths: Vec<Box<Expression<'a>>>,
}

/// A constant of an enumeration (6.7.2.2).
#[derive(Drop)]
#[cycle(tree)]
pub struct Constant<'a> {
    /// Its name.
    pub name: Name<'a>,
    /// The value that is given, or none.
    pub value: Option<Box<Expression<'a>>>,
}

/// A value in memory of its own.
pub fn boxed<T: Drop>(alloc: Global, value: T) -> Result<Box<T>, AllocError>
    ensures { IfOk result (λ x. x.value ≡ value) }
{
    Ok(Box::new(alloc, value)?)
}

#[tactic(auto, using(crate::proofs::Views::views))]
impl<'a> Expression<'a> {
    /// `name`
    pub fn named(alloc: Global, name: Name<'a>) -> Result<Box<Expression<'a>>, AllocError>
        ensures { IfOk result (λ x. expression_of x.value ≡ tree.Named (name_of name.entry)) }
    {
        boxed(alloc, Expression::Named(name))
    }

    /// A number.
    pub fn number(
        alloc: Global,
        value: u64,
        of: NumberType,
        offset: usize,
    ) -> Result<Box<Expression<'a>>, AllocError>
        ensures { IfOk result (λ x. expression_of x.value ≡ tree.Number value of offset) }
    {
        boxed(alloc, Expression::Number(value, of, offset))
    }

    /// A character constant.
    pub fn character(
        alloc: Global,
        value: u8,
        offset: usize,
    ) -> Result<Box<Expression<'a>>, AllocError>
        ensures { IfOk result (λ x. expression_of x.value ≡ tree.Character value offset) }
    {
        boxed(alloc, Expression::Character(value, offset))
    }

    /// `(inner)`
    pub fn bracketed(
        alloc: Global,
        inner: Box<Expression<'a>>,
        offset: usize,
    ) -> Result<Box<Expression<'a>>, AllocError>
        ensures { IfOk result (λ x. expression_of x.value ≡ tree.Bracketed
            (expression_of inner.entry.value) offset) }
    {
        boxed(alloc, Expression::Bracketed(inner, offset))
    }

    /// `base[index]`
    pub fn index(
        alloc: Global,
        base: Box<Expression<'a>>,
        index: Box<Expression<'a>>,
        offset: usize,
    ) -> Result<Box<Expression<'a>>, AllocError>
        ensures { IfOk result (λ x. expression_of x.value ≡ tree.Index
            (expression_of base.entry.value) (expression_of index.entry.value) offset) }
    {
        boxed(alloc, Expression::Index(base, index, offset))
    }

    /// `base.member`, `base->member`
    pub fn member(
        alloc: Global,
        base: Box<Expression<'a>>,
        access: Access,
        member: Name<'a>,
        offset: usize,
    ) -> Result<Box<Expression<'a>>, AllocError>
        ensures { IfOk result (λ x. expression_of x.value ≡ tree.Member
            (expression_of base.entry.value) access (name_of member.entry) offset) }
    {
        boxed(alloc, Expression::Member(base, access, member, offset))
    }

    /// An operator before its operand.
    pub fn unary(
        alloc: Global,
        operator: UnaryOperator,
        operand: Box<Expression<'a>>,
        offset: usize,
    ) -> Result<Box<Expression<'a>>, AllocError>
        ensures { IfOk result (λ x. expression_of x.value ≡ tree.Unary operator
            (expression_of operand.entry.value) offset) }
    {
        boxed(alloc, Expression::Unary(operator, operand, offset))
    }

    /// `sizeof operand`
    pub fn sizeof(
        alloc: Global,
        operand: Box<Expression<'a>>,
        offset: usize,
    ) -> Result<Box<Expression<'a>>, AllocError>
        ensures { IfOk result (λ x. expression_of x.value ≡ tree.Sizeof
            (expression_of operand.entry.value) offset) }
    {
        boxed(alloc, Expression::Sizeof(operand, offset))
    }

    /// `sizeof (type)`
    pub fn sizeof_type(
        alloc: Global,
        of: Box<TypeName<'a>>,
        offset: usize,
    ) -> Result<Box<Expression<'a>>, AllocError>
        ensures { IfOk result (λ x. expression_of x.value ≡ tree.SizeofType
            (type_name_of of.entry.value) offset) }
    {
        boxed(alloc, Expression::SizeofType(of, offset))
    }

    /// `(type) operand`
    pub fn cast(
        alloc: Global,
        to: Box<TypeName<'a>>,
        operand: Box<Expression<'a>>,
        offset: usize,
    ) -> Result<Box<Expression<'a>>, AllocError>
        ensures { IfOk result (λ x. expression_of x.value ≡ tree.Cast (type_name_of to.entry.value)
            (expression_of operand.entry.value) offset) }
    {
        boxed(alloc, Expression::Cast(to, operand, offset))
    }

    /// An operator between its operands.
    pub fn binary(
        alloc: Global,
        operator: BinaryOperator,
        left: Box<Expression<'a>>,
        right: Box<Expression<'a>>,
        offset: usize,
    ) -> Result<Box<Expression<'a>>, AllocError>
        ensures { IfOk result (λ x. expression_of x.value ≡ tree.Binary operator
            (expression_of left.entry.value) (expression_of right.entry.value) offset) }
    {
        boxed(alloc, Expression::Binary(operator, left, right, offset))
    }

    /// `test ? first : second`
    pub fn conditional(
        alloc: Global,
        test: Box<Expression<'a>>,
        first: Box<Expression<'a>>,
        second: Box<Expression<'a>>,
        offset: usize,
    ) -> Result<Box<Expression<'a>>, AllocError>
        ensures { IfOk result (λ x. expression_of x.value ≡ tree.Conditional (expression_of
            test.entry.value) (expression_of first.entry.value) (expression_of second.entry.value)
            offset) }
    {
        boxed(alloc, Expression::Conditional(test, first, second, offset))
    }
}

#[tactic(auto, using(crate::proofs::Views::views))]
impl<'a> TypeSpecifier<'a> {
    /// `void`
    pub fn void(alloc: Global) -> Result<Box<TypeSpecifier<'a>>, AllocError>
        ensures { IfOk result (λ x. type_specifier_of x.value ≡ tree.Void) }
    {
        boxed(alloc, TypeSpecifier::Void)
    }

    /// An integer type.
    pub fn integer(alloc: Global, of: IntegerType) -> Result<Box<TypeSpecifier<'a>>, AllocError>
        ensures { IfOk result (λ x. type_specifier_of x.value ≡ tree.Integer of) }
    {
        boxed(alloc, TypeSpecifier::Integer(of))
    }

    /// A typedef name.
    pub fn typedef_name(alloc: Global, name: Name<'a>) -> Result<Box<TypeSpecifier<'a>>, AllocError>
        ensures { IfOk result (λ x. type_specifier_of x.value ≡ tree.TypedefName
            (name_of name.entry)) }
    {
        boxed(alloc, TypeSpecifier::TypedefName(name))
    }

    /// `struct tag`
    pub fn struct_tag(alloc: Global, tag: Name<'a>) -> Result<Box<TypeSpecifier<'a>>, AllocError>
        ensures { IfOk result (λ x. type_specifier_of x.value
            ≡ tree.StructTag (name_of tag.entry)) }
    {
        boxed(alloc, TypeSpecifier::StructTag(tag))
    }

    /// `struct tag { .. }`
    pub fn structure(
        alloc: Global,
        tag: Option<Name<'a>>,
        members: Vec<Box<Member<'a>>>,
    ) -> Result<Box<TypeSpecifier<'a>>, AllocError>
        ensures { IfOk result (λ x. type_specifier_of x.value ≡ tree.Struct
            (option_map name_of tag.entry) (members_in members.entry)) }
    {
        boxed(alloc, TypeSpecifier::Struct(tag, members))
    }

    /// `enum tag`
    pub fn enum_tag(alloc: Global, tag: Name<'a>) -> Result<Box<TypeSpecifier<'a>>, AllocError>
        ensures { IfOk result (λ x. type_specifier_of x.value ≡ tree.EnumTag (name_of tag.entry)) }
    {
        boxed(alloc, TypeSpecifier::EnumTag(tag))
    }

    /// `enum tag { .. }`
    pub fn enumeration(
        alloc: Global,
        tag: Option<Name<'a>>,
        constants: Vec<Box<Constant<'a>>>,
    ) -> Result<Box<TypeSpecifier<'a>>, AllocError>
        ensures { IfOk result (λ x. type_specifier_of x.value ≡ tree.Enum
            (option_map name_of tag.entry) (constants_in constants.entry)) }
    {
        boxed(alloc, TypeSpecifier::Enum(tag, constants))
    }
}

#[tactic(auto, using(crate::proofs::Views::views))]
impl<'a> TypeName<'a> {
    /// Made of its parts.
    pub fn new(
        alloc: Global,
        specifiers: Box<Specifiers<'a>>,
        pointers: usize,
    ) -> Result<Box<TypeName<'a>>, AllocError>
        ensures { IfOk result (λ x. type_name_of x.value ≡ tree.Pointers
            (specifiers_of specifiers.entry.value) pointers) }
    {
        boxed(
            alloc,
            TypeName {
                specifiers,
                pointers,
            },
        )
    }
}

#[tactic(auto, using(crate::proofs::Views::views))]
impl<'a> Specifiers<'a> {
    /// Made of its parts.
    pub fn new(
        alloc: Global,
        storage: Storage,
        base: Box<TypeSpecifier<'a>>,
        offset: usize,
    ) -> Result<Box<Specifiers<'a>>, AllocError>
        ensures { IfOk result (λ x. specifiers_of x.value ≡ tree.Specified (storage_of storage)
            (type_specifier_of base.entry.value) offset) }
    {
        boxed(
            alloc,
            Specifiers {
                storage,
                base,
                offset,
            },
        )
    }
}

#[tactic(auto, using(crate::proofs::Views::views))]
impl<'a> Member<'a> {
    /// Made of its parts.
    pub fn new(
        alloc: Global,
        specifiers: Box<Specifiers<'a>>,
        declarators: Vec<Box<Declarator<'a>>>,
    ) -> Result<Box<Member<'a>>, AllocError>
        ensures { IfOk result (λ x. member_of x.value ≡ (
          specifiers_of specifiers.entry.value,
          declarators_in declarators.entry,
        )) }
    {
        boxed(
            alloc,
            Member {
                specifiers,
                declarators,
            },
        )
    }
}

#[tactic(auto, using(crate::proofs::Views::views))]
impl<'a> Declarator<'a> {
    /// Made of its parts.
    pub fn new(
        alloc: Global,
        pointers: usize,
        name: Name<'a>,
        dimensions: Box<Dimensions<'a>>,
    ) -> Result<Box<Declarator<'a>>, AllocError>
        ensures { IfOk result (λ x. declarator_of x.value ≡ tree.Declared pointers (name_of
            name.entry) (dimensions_of dimensions.entry.value).0
            (dimensions_of dimensions.entry.value).1) }
    {
        boxed(
            alloc,
            Declarator {
                pointers,
                name,
                dimensions,
            },
        )
    }
}

#[tactic(auto, using(crate::proofs::Views::views))]
impl<'a> Dimensions<'a> {
    /// Made of its parts.
    pub fn new(
        alloc: Global,
        is_open: bool,
        lengths: Vec<Box<Expression<'a>>>,
    ) -> Result<Box<Dimensions<'a>>, AllocError>
        ensures { IfOk result (λ x. dimensions_of x.value
            ≡ (is_open, expressions_in lengths.entry)) }
    {
        boxed(alloc, Dimensions { is_open, lengths })
    }
}

#[tactic(auto, using(crate::proofs::Views::views))]
impl<'a> Constant<'a> {
    /// Made of its parts.
    pub fn new(
        alloc: Global,
        name: Name<'a>,
        value: Option<Box<Expression<'a>>>,
    ) -> Result<Box<Constant<'a>>, AllocError>
        ensures { IfOk result (λ x. constant_of x.value ≡ (
          name_of name.entry,
          value_in
              value.entry,
        )) }
    {
        boxed(alloc, Constant { name, value })
    }
}
