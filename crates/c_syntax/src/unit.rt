//! Translation units, their external declarations and what these declare (6.9).

use crate::expression::{Declarator, Dimensions, Name, Specifiers};
use crate::statement::Part;

/// A parameter. An array of it is a pointer.
#[derive(Drop)]
pub struct Parameter<'a> {
    /// Its specifiers.
    pub specifiers: Box<Specifiers<'a>>,
    /// How many `*` are before the name.
    pub pointers: usize,
    /// The name, or none.
    pub name: Option<Name<'a>>,
    /// The lengths of an array.
    pub dimensions: Box<Dimensions<'a>>,
}

/// A declared function.
#[derive(Drop)]
pub struct FunctionDeclarator<'a> {
    /// How many `*` its result has.
    pub pointers: usize,
    /// The name.
    pub name: Name<'a>,
    /// The parameters in order; none for `(void)` and `()`.
    pub parameters: Vec<Box<Parameter<'a>>>,
}

/// What a declaration of the unit declares.
#[derive(Drop)]
pub enum Global<'a> {
    /// An object, or with `typedef` a typedef name.
    Object(Box<Declarator<'a>>),
    /// A function.
    Function(Box<FunctionDeclarator<'a>>),
}

/// An external declaration.
#[derive(Drop)]
pub enum ExternalDeclaration<'a> {
    /// `;`
    Empty,
    /// A declaration, which may declare no name. Initial values are left out.
    Declaration(Box<Specifiers<'a>>, Vec<Box<Global<'a>>>),
    /// A function with its body, and the offset of the `}` that closes the body.
    Definition(Box<Specifiers<'a>>, Box<FunctionDeclarator<'a>>, Vec<Part<'a>>, usize),
}

/// A translation unit: its external declarations in order.
#[derive(Drop)]
pub struct TranslationUnit<'a> {
    /// The external declarations.
    pub items: Vec<Box<ExternalDeclaration<'a>>>,
}
