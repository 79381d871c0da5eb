//! Laws of the names of functions with a body: they are names of certificates, and no two of one
//! unit are alike (`specs/Statements.antt`).

ghost use Rattle.c_types_laws.specs.Statements.{AreApart, AreDefined, DefinesNames, HasName};

/// The names of the functions that a text defines are names of certificates.
pub fn texts_define_names()
    ensures { DefinesNames }
{}

/// The bodies of a core are those of the functions that its unit defines, in their order.
pub fn bodies_are_definitions()
    ensures { AreDefined }
{}

/// No two bodies of a core have one name; so it is among those whose names pass a test.
pub fn bodies_have_names_of_their_own()
    ensures { AreApart }
{}

/// A function of a text that has a body has a name of certificates.
pub fn functions_with_bodies_have_names()
    ensures { HasName }
{}
