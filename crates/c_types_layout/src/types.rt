//! Types.

ghost use Rattle.std.specs.Prelude.{◌≡◌, ◌≤◌, IfOk, IfSome, option_map};
ghost use Rattle.c_types_spec.specs.Types as tree;
ghost use Rattle.c_types_spec.specs.Operands as rule;
ghost use Rattle.c_types_layout.specs.Extents.{extent_of, AreCounted};
ghost use Rattle.c_types_layout.specs.Types as specs;
ghost use Rattle.c_types_layout.specs.Types.{type_of, base_of, outer_of, target_of, element_of};
ghost use Rattle.c_types_layout.specs.Types.{wrapped, pointed, IsLonger, IsTarget};
ghost use Rattle.c_types_layout.specs.Comparison.{inside, head_type};

use crate::extents::Extent;
use attempt::attempt;
use c_types_spec::{POINTER_WIDTH, Scalar, WIDE_WIDTH};
use std::alloc::{AllocError, Global};
use std::marker::Model;
use std::rc::Rc;

/// The type of a pointer's value, and of `sizeof`.
pub const WORD: Scalar = Scalar {
    width: POINTER_WIDTH,
    is_signed: false,
};

/// What a type has innermost.
#[derive(Clone, Copy)]
pub enum Base {
    /// `void`
    Void,
    /// An integer type.
    Integer(Scalar),
    /// A struct, by its number.
    Struct(usize),
}

/// Pointers and arrays round a type, the outermost first. Copies share them.
pub enum Layers {
    /// None of them.
    Nothing,
    /// A pointer, as many further pointers directly inside it, and what the last of them points to.
    Pointer(u32, Rc<Layers>),
    /// An array with its length or without, the extent of it and of the arrays directly inside it,
    /// and its elements.
    Array(Option<u64>, Extent, Rc<Layers>),
}

impl Drop for Layers {
    fn drop(mut self) {
        loop {
            match self {
                Layers::Nothing => return,
                Layers::Pointer(_, rest) => match Rc::into_inner(rest) {
                    Some(layers) => self = layers,
                    None => return,
                },
                Layers::Array(_, _, rest) => match Rc::into_inner(rest) {
                    Some(layers) => self = layers,
                    None => return,
                },
            }
        }
    }
}

/// What a type is, from outside.
#[derive(Clone, Copy)]
pub enum Outer {
    /// `void`
    Void,
    /// An integer type.
    Integer(Scalar),
    /// A struct, by its number.
    Struct(usize),
    /// A pointer.
    Pointer,
    /// An array, with its length or without.
    Array(Option<u64>),
}

/// Layers whose arrays have their extents. A contract sees the layers.
#[derive(Drop)]
pub struct Counted {
    layers: Layers,
}

impl Model for Counted {
    ghost use Rattle.std.specs.Coded.{codes};
    ghost use Rattle.c_types_layout.specs.declared.types.Layers.{Layers};
    ghost use Rattle.c_types_layout.specs.contracts.types.Layers as layers_row;
    ghost use Rattle.c_types_layout.specs.Extents.{AreCounted};

    ghost Value = { Layers };

    ghost coded = { Prim.hlevel (codes, layers_row.the_row.coded) };

    ghost view = { λ c. c.layers };

    ghost invariant = { λ c. AreCounted c.layers };
}

/// A type. A copy shares the pointers and arrays.
#[derive(Drop)]
pub struct CType {
    alloc: Global,
    /// What it has innermost.
    pub(crate) base: Base,
    /// The pointers and arrays round it.
    pub(crate) layers: Counted,
}

impl Layers {
    /// What the outermost arrays have.
    fn extent(&self) -> Extent
        ensures { result ≡ extent_of self.now }
    {
        match self {
            Layers::Nothing => Extent {
                count: Some(1),
                of_pointers: false,
            },
            Layers::Pointer(_, _) => Extent {
                count: Some(1),
                of_pointers: true,
            },
            Layers::Array(_, extent, _) => *extent,
        }
    }

    /// The same layers.
    fn share(&self) -> Result<Layers, AllocError>
        ensures same { IfOk result (λ l. (b : Base) → wrapped l b ≡ wrapped self.now b) }
        ensures counted { IfOk result (λ l. AreCounted self.now → AreCounted l) }
    {
        match self {
            Layers::Nothing => Ok(Layers::Nothing),
            Layers::Pointer(further, rest) => {
                let shared = attempt!(rest.clone());
                Ok(Layers::Pointer(*further, shared))
            }
            Layers::Array(length, extent, rest) => {
                let shared = attempt!(rest.clone());
                Ok(Layers::Array(*length, *extent, shared))
            }
        }
    }

    /// A pointer more, where they begin with a pointer that can count it.
    fn longer(&self) -> Result<Option<Layers>, AllocError>
        ensures same { IfOk result (λ found. IsLonger found self.now) }
        ensures counted { IfOk result (λ found. AreCounted self.now → IfSome found AreCounted) }
    {
        match self {
            Layers::Pointer(further, rest) => match further.checked_add(1) {
                Some(more) => {
                    let shared = attempt!(rest.clone());
                    Ok(Some(Layers::Pointer(more, shared)))
                }
                None => Ok(None),
            },
            Layers::Nothing | Layers::Array(_, _, _) => Ok(None),
        }
    }

    /// Those of a pointer to what has these.
    fn pointer(self, alloc: Global) -> Result<Layers, AllocError>
        ensures same { IfOk result (λ l. (b : Base) → wrapped l b ≡ tree.Pointer (wrapped self b)) }
        ensures counted { IfOk result (λ l. AreCounted self → AreCounted l) }
    {
        match attempt!(self.longer()) {
            Some(longer) => Ok(longer),
            None => {
                let target = Rc::new(alloc, self)?;
                Ok(Layers::Pointer(0, target))
            }
        }
    }

    /// Those of what a pointer points to; none where they don't begin with a pointer.
    fn target(&self) -> Result<Option<Layers>, AllocError>
        ensures same { IfOk result (λ found. IsTarget found self.now) }
        ensures counted { IfOk result (λ found. AreCounted self.now → IfSome found AreCounted) }
    {
        match self {
            Layers::Pointer(further, rest) => match further.checked_sub(1) {
                Some(fewer) => {
                    let shared = attempt!(rest.clone());
                    Ok(Some(Layers::Pointer(fewer, shared)))
                }
                None => {
                    let target = attempt!(rest.share());
                    Ok(Some(target))
                }
            },
            Layers::Nothing | Layers::Array(_, _, _) => Ok(None),
        }
    }
}

impl Counted {
    /// The layers.
    fn get(&self) -> &Layers
        ensures layers { result.now ≡ self.now }
        ensures counted { AreCounted result.now }
    {
        &self.layers
    }
}

/// A type without pointers and arrays, from outside.
fn plain_outer(base: Base) -> Outer
    ensures { result ≡ outer_of (base_of base) }
{
    match base {
        Base::Void => Outer::Void,
        Base::Integer(scalar) => Outer::Integer(scalar),
        Base::Struct(number) => Outer::Struct(number),
    }
}

impl CType {
    /// A type without pointers and arrays.
    #[tactic(auto, unfolding(crate::specs::Types::type_of))]
    pub fn plain(alloc: Global, base: Base) -> CType
        ensures { type_of result ≡ base_of base }
    {
        CType {
            alloc,
            base,
            layers: Counted {
                layers: Layers::Nothing,
            },
        }
    }

    /// The same type once more.
    #[tactic(auto, unfolding(crate::specs::Types::type_of))]
    pub fn copy(&self, alloc: Global) -> Result<CType, AllocError>
        ensures { IfOk result (λ t. type_of t ≡ type_of self.now) }
    {
        let layers = attempt!(self.layers.get().share());
        Ok(CType {
            alloc,
            base: self.base,
            layers: Counted { layers },
        })
    }

    /// What it is from outside.
    #[tactic(auto, unfolding(crate::specs::Types::type_of))]
    pub fn outer(&self) -> Outer
        ensures { result ≡ outer_of (type_of self.now) }
    {
        match self.layers.get() {
            Layers::Nothing => plain_outer(self.base),
            Layers::Pointer(_, _) => Outer::Pointer,
            Layers::Array(length, _, _) => Outer::Array(*length),
        }
    }

    /// The type of its values; `void`, arrays and structs have none.
    #[tactic(auto, using(crate::proofs::Outers::by_outer))]
    pub fn scalar(&self) -> Option<Scalar>
        ensures { result ≡ tree.scalar_of (type_of self.now) }
    {
        match self.outer() {
            Outer::Integer(scalar) => Some(scalar),
            Outer::Pointer => Some(WORD),
            Outer::Void | Outer::Struct(_) | Outer::Array(_) => None,
        }
    }

    /// Its scalar, where it is an integer type.
    #[tactic(auto, using(crate::proofs::Outers::by_outer))]
    pub fn integer(&self) -> Option<Scalar>
        ensures { result ≡ rule.integer_type (type_of self.now) }
    {
        match self.outer() {
            Outer::Integer(scalar) => Some(scalar),
            Outer::Void | Outer::Pointer | Outer::Struct(_) | Outer::Array(_) => None,
        }
    }

    /// It is an integer type.
    pub fn is_integer(&self) -> bool
        ensures { result ≡ specs.is_integer (type_of self.now) }
    {
        match self.outer() {
            Outer::Integer(_) => true,
            Outer::Void | Outer::Pointer | Outer::Struct(_) | Outer::Array(_) => false,
        }
    }

    /// It is a pointer.
    pub fn is_pointer(&self) -> bool
        ensures { result ≡ specs.is_pointer_type (type_of self.now) }
    {
        match self.outer() {
            Outer::Pointer => true,
            Outer::Void | Outer::Integer(_) | Outer::Struct(_) | Outer::Array(_) => false,
        }
    }

    /// It is a pointer to `void`.
    #[tactic(auto, unfolding(crate::specs::Types::type_of))]
    pub fn points_to_void(&self) -> bool
        ensures { result ≡ specs.void_pointer (type_of self.now) }
    {
        match self.layers.get() {
            Layers::Pointer(further, rest) => is_void(self.base, *further, rest),
            Layers::Nothing | Layers::Array(_, _, _) => false,
        }
    }

    /// A pointer to it.
    #[tactic(auto, unfolding(crate::specs::Types::type_of))]
    pub fn pointer(self) -> Result<CType, AllocError>
        ensures { IfOk result (λ t. type_of t ≡ tree.Pointer (type_of self)) }
    {
        let CType {
            alloc,
            base,
            layers,
        } = self;
        let layers = attempt!(layers.layers.pointer(alloc));
        Ok(CType {
            alloc,
            base,
            layers: Counted { layers },
        })
    }

    /// An array of it.
    #[tactic(auto, unfolding(crate::specs::Types::type_of))]
    pub fn array(self, length: Option<u64>) -> Result<CType, AllocError>
        ensures { IfOk result (λ t. type_of t ≡ tree.Array length (type_of self)) }
    {
        let CType {
            alloc,
            base,
            layers,
        } = self;
        let extent = layers.layers.extent().of_array(length);
        let element = Rc::new(alloc, layers.layers)?;
        Ok(CType {
            alloc,
            base,
            layers: Counted {
                layers: Layers::Array(length, extent, element),
            },
        })
    }

    /// What a pointer points to; none of another type.
    #[tactic(auto, unfolding(crate::specs::Types::type_of))]
    pub fn target(&self) -> Result<Option<CType>, AllocError>
        ensures { IfOk result (λ t. option_map type_of t ≡ target_of (type_of self.now)) }
    {
        match attempt!(self.layers.get().target()) {
            Some(layers) => Ok(Some(CType {
                alloc: self.alloc,
                base: self.base,
                layers: Counted { layers },
            })),
            None => Ok(None),
        }
    }

    /// The elements of an array; none of another type.
    #[tactic(auto, unfolding(crate::specs::Types::type_of))]
    pub fn element(&self) -> Result<Option<CType>, AllocError>
        ensures { IfOk result (λ t. option_map type_of t ≡ element_of (type_of self.now)) }
    {
        match self.layers.get() {
            Layers::Array(_, _, element) => {
                let layers = attempt!(element.share());
                Ok(Some(CType {
                    alloc: self.alloc,
                    base: self.base,
                    layers: Counted { layers },
                }))
            }
            Layers::Nothing | Layers::Pointer(_, _) => Ok(None),
        }
    }

    /// An integer of 64 bits occurs in it.
    #[tactic(auto, unfolding(crate::specs::Types::type_of, c_types_spec::specs::Types::is_wide), using(crate::proofs::Wrapped::wide_base),)]
    pub fn is_wide(&self) -> bool
        ensures { result ≡ tree.is_wide (type_of self.now) }
    {
        match self.base {
            Base::Integer(scalar) => scalar.width == WIDE_WIDTH,
            Base::Void | Base::Struct(_) => false,
        }
    }

    /// What the outermost arrays have.
    pub(crate) fn extent(&self) -> Extent
        ensures extent { result ≡ extent_of self.now.layers }
        ensures counted { AreCounted self.now.layers }
    {
        self.layers.get().extent()
    }
}

fn is_void_base(base: Base) -> bool
    ensures { result ≡ tree.is_void (base_of base) }
{
    match base {
        Base::Void => true,
        Base::Integer(_) | Base::Struct(_) => false,
    }
}

/// A type with so many pointers, and these layers inside them, is `void`.
fn is_void(base: Base, pointers: u32, layers: &Layers) -> bool
    ensures { result ≡ tree.is_void (pointed pointers (wrapped layers.now base)) }
{
    if pointers > 0 {
        return false;
    }
    match layers {
        Layers::Nothing => is_void_base(base),
        Layers::Pointer(_, _) | Layers::Array(_, _, _) => false,
    }
}

/// The lengths are equal.
fn same_length(a: Option<u64>, b: Option<u64>) -> bool
    ensures { result ≡ tree.same_length a b }
{
    match (a, b) {
        (None, None) => true,
        (Some(m), Some(n)) => m == n,
        _ => false,
    }
}

/// The scalars are equal.
pub fn same_scalar(a: Scalar, b: Scalar) -> bool
    ensures { result ≡ tree.same_scalar a b }
{
    a.width == b.width && a.is_signed == b.is_signed
}

/// What two types have innermost is equal.
#[tactic(auto, unfolding(c_types_spec::specs::Types::same_type))]
fn same_base(a: Base, b: Base) -> bool
    ensures { result ≡ tree.same_type (base_of a) (base_of b) }
{
    match (a, b) {
        (Base::Void, Base::Void) => true,
        (Base::Integer(s), Base::Integer(t)) => same_scalar(s, t),
        (Base::Struct(m), Base::Struct(n)) => m == n,
        _ => false,
    }
}

/// What is inside some of the layers of a type.
#[derive(Clone, Copy)]
struct Inner<'a> {
    /// How many pointers it begins with, besides those of `layers`.
    pointers: u32,
    /// The layers inside these pointers.
    layers: &'a Layers,
    /// What the type has innermost.
    base: Base,
}

/// The outermost layer of a type, and what is inside it.
#[derive(Clone, Copy)]
enum Head<'a> {
    /// There is none.
    Base(Base),
    /// A pointer, and what it points to.
    Pointer(Inner<'a>),
    /// An array, with its length or without, and its elements.
    Array(Option<u64>, Inner<'a>),
}

impl<'a> Inner<'a> {
    /// The outermost layer.
    fn head(self) -> Head<'a>
        ensures { head_type result ≡ inside self.entry }
    {
        let base = self.base;
        if self.pointers > 0 {
            return Head::Pointer(Inner {
                pointers: self.pointers - 1,
                layers: self.layers,
                base,
            });
        }
        match self.layers {
            Layers::Nothing => Head::Base(base),
            Layers::Pointer(further, rest) => Head::Pointer(Inner {
                pointers: *further,
                layers: rest,
                base,
            }),
            Layers::Array(length, _, rest) => Head::Array(
                *length,
                Inner {
                    pointers: 0,
                    layers: rest,
                    base,
                },
            ),
        }
    }

    /// What is inside so many of its first pointers.
    fn within(self, pointers: u32) -> Inner<'a>
        requires { pointers ≤ self.pointers }
        ensures { pointed pointers (inside result) ≡ inside self.entry }
    {
        Inner {
            pointers: self.pointers - pointers,
            layers: self.layers,
            base: self.base,
        }
    }
}

/// The types are equal. A turn takes an array off both, or the shorter of their runs of pointers.
#[tactic(auto, unfolding(c_types_spec::specs::Types::same_type))]
fn same_inner(a: Inner, b: Inner) -> bool
    ensures { result ≡ tree.same_type (inside a.entry) (inside b.entry) }
{
    let mut left = a;
    let mut right = b;
    loop {
        match (left.head(), right.head()) {
            (Head::Base(s), Head::Base(t)) => return same_base(s, t),
            (Head::Pointer(s), Head::Pointer(t)) => {
                let common = s.pointers.min(t.pointers);
                left = s.within(common);
                right = t.within(common);
            }
            (Head::Array(m, s), Head::Array(n, t)) => {
                if !same_length(m, n) {
                    return false;
                }
                left = s;
                right = t;
            }
            _ => return false,
        }
    }
}

/// The types are equal.
#[tactic(auto, unfolding(crate::specs::Types::type_of))]
pub fn same_type(a: &CType, b: &CType) -> bool
    ensures { result ≡ tree.same_type (type_of a.now) (type_of b.now) }
{
    let left = Inner {
        pointers: 0,
        layers: a.layers.get(),
        base: a.base,
    };
    let right = Inner {
        pointers: 0,
        layers: b.layers.get(),
        base: b.base,
    };
    same_inner(left, right)
}
