//! Expressions over one element of a list.

ghost use Rattle.std.specs.Prelude.{◌≡◌, IfOk, IsTrue, ◌↔◌};
ghost use Rattle.pipeline_expr.specs.Same.{same_expr};
ghost use Rattle.pipeline_expr.specs.Kinds.{kind_of_expr};

use crate::alike::Alike;
use crate::kind::{Kind, ValueKind, kind_of, of_values};
use crate::needs;
use crate::values::same_value;
use grid_base::{Datum, Duplicate, NoMemory};
use sqlite_items::Boxed;
use std::alloc::Global;

/// An expression over one element: an entry, or a value.
#[derive(Debug, Drop)]
pub enum Expr {
    /// The entry's key, a text.
    Key,
    /// The entry's value.
    Value,
    /// The element itself, where it is no entry.
    It,
    /// A value that stands for itself.
    Lit(Datum),
    /// The sum of two ints, modulo 2^64.
    Add(Boxed<Expr>, Boxed<Expr>),
    /// The difference of two ints, modulo 2^64.
    Sub(Boxed<Expr>, Boxed<Expr>),
    /// The product of two ints, modulo 2^64.
    Mul(Boxed<Expr>, Boxed<Expr>),
    /// Whether two values of one kind are equal.
    Same(Boxed<Expr>, Boxed<Expr>),
    /// Whether the first of two ints or texts comes before the second.
    Less(Boxed<Expr>, Boxed<Expr>),
    /// Whether both flags are true.
    And(Boxed<Expr>, Boxed<Expr>),
    /// Whether one of two flags is true.
    Or(Boxed<Expr>, Boxed<Expr>),
    /// Whether the flag is false.
    Not(Boxed<Expr>),
    /// The number of bytes of a text.
    Length(Boxed<Expr>),
    /// Whether the second text is a prefix of the first.
    Starts(Boxed<Expr>, Boxed<Expr>),
}

impl Expr {
    /// An equal expression. The only failure is that memory runs out.
    pub fn copy(&self, alloc: Global) -> Result<Expr, NoMemory>
        ensures { IfOk result (λ copy. copy ≡ self.now) }
    {
        match self {
            Expr::Key => Ok(Expr::Key),
            Expr::Value => Ok(Expr::Value),
            Expr::It => Ok(Expr::It),
            Expr::Lit(datum) => Ok(Expr::Lit(datum.copy(alloc)?)),
            Expr::Add(a, b) => {
                let a = Boxed::new(alloc, a.get().copy(alloc)?)?;
                let b = Boxed::new(alloc, b.get().copy(alloc)?)?;
                Ok(Expr::Add(a, b))
            }
            Expr::Sub(a, b) => {
                let a = Boxed::new(alloc, a.get().copy(alloc)?)?;
                let b = Boxed::new(alloc, b.get().copy(alloc)?)?;
                Ok(Expr::Sub(a, b))
            }
            Expr::Mul(a, b) => {
                let a = Boxed::new(alloc, a.get().copy(alloc)?)?;
                let b = Boxed::new(alloc, b.get().copy(alloc)?)?;
                Ok(Expr::Mul(a, b))
            }
            Expr::Same(a, b) => {
                let a = Boxed::new(alloc, a.get().copy(alloc)?)?;
                let b = Boxed::new(alloc, b.get().copy(alloc)?)?;
                Ok(Expr::Same(a, b))
            }
            Expr::Less(a, b) => {
                let a = Boxed::new(alloc, a.get().copy(alloc)?)?;
                let b = Boxed::new(alloc, b.get().copy(alloc)?)?;
                Ok(Expr::Less(a, b))
            }
            Expr::And(a, b) => {
                let a = Boxed::new(alloc, a.get().copy(alloc)?)?;
                let b = Boxed::new(alloc, b.get().copy(alloc)?)?;
                Ok(Expr::And(a, b))
            }
            Expr::Or(a, b) => {
                let a = Boxed::new(alloc, a.get().copy(alloc)?)?;
                let b = Boxed::new(alloc, b.get().copy(alloc)?)?;
                Ok(Expr::Or(a, b))
            }
            Expr::Not(a) => Ok(Expr::Not(Boxed::new(alloc, a.get().copy(alloc)?)?)),
            Expr::Length(a) => Ok(Expr::Length(Boxed::new(alloc, a.get().copy(alloc)?)?)),
            Expr::Starts(a, b) => {
                let a = Boxed::new(alloc, a.get().copy(alloc)?)?;
                let b = Boxed::new(alloc, b.get().copy(alloc)?)?;
                Ok(Expr::Starts(a, b))
            }
        }
    }

    /// The kind of its value over elements of a kind, where the cluster's values have the kind
    /// `values`. It is none where a need isn't met.
    pub fn kind(&self, elements: Kind, values: ValueKind) -> Option<Kind>
        ensures { result ≡ kind_of_expr elements values self.now }
    {
        match self {
            Expr::Key => needs::part_kind(elements, Kind::Text),
            Expr::Value => needs::part_kind(elements, of_values(values)),
            Expr::It => needs::it_kind(elements),
            Expr::Lit(datum) => Some(kind_of(datum)),
            Expr::Add(a, b) => {
                let a = a.get().kind(elements, values)?;
                let b = b.get().kind(elements, values)?;
                needs::arithmetic_kind(a, b)
            }
            Expr::Sub(a, b) => {
                let a = a.get().kind(elements, values)?;
                let b = b.get().kind(elements, values)?;
                needs::arithmetic_kind(a, b)
            }
            Expr::Mul(a, b) => {
                let a = a.get().kind(elements, values)?;
                let b = b.get().kind(elements, values)?;
                needs::arithmetic_kind(a, b)
            }
            Expr::Same(a, b) => {
                let a = a.get().kind(elements, values)?;
                let b = b.get().kind(elements, values)?;
                needs::equation_kind(a, b)
            }
            Expr::Less(a, b) => {
                let a = a.get().kind(elements, values)?;
                let b = b.get().kind(elements, values)?;
                needs::order_kind(a, b)
            }
            Expr::And(a, b) => {
                let a = a.get().kind(elements, values)?;
                let b = b.get().kind(elements, values)?;
                needs::logic_kind(a, b)
            }
            Expr::Or(a, b) => {
                let a = a.get().kind(elements, values)?;
                let b = b.get().kind(elements, values)?;
                needs::logic_kind(a, b)
            }
            Expr::Not(a) => needs::negation_kind(a.get().kind(elements, values)?),
            Expr::Length(a) => needs::length_kind(a.get().kind(elements, values)?),
            Expr::Starts(a, b) => {
                let a = a.get().kind(elements, values)?;
                let b = b.get().kind(elements, values)?;
                needs::prefix_kind(a, b)
            }
        }
    }

    /// Whether the expressions are equal.
    pub fn same(&self, other: &Expr) -> bool
        ensures { IsTrue result ↔ (self.now ≡ other.now) }
    {
        self.equals(other)
    }

    /// The test of `same`, form by form.
    fn equals(&self, other: &Expr) -> bool
        ensures { result ≡ same_expr self.now other.now }
    {
        match (self, other) {
            (Expr::Key, Expr::Key) => true,
            (Expr::Value, Expr::Value) => true,
            (Expr::It, Expr::It) => true,
            (Expr::Lit(a), Expr::Lit(b)) => same_value(a, b),
            (Expr::Add(a, b), Expr::Add(c, d)) => a.get().equals(c.get())
                && b.get().equals(d.get()),
            (Expr::Sub(a, b), Expr::Sub(c, d)) => a.get().equals(c.get())
                && b.get().equals(d.get()),
            (Expr::Mul(a, b), Expr::Mul(c, d)) => a.get().equals(c.get())
                && b.get().equals(d.get()),
            (Expr::Same(a, b), Expr::Same(c, d)) => a.get().equals(c.get())
                && b.get().equals(d.get()),
            (Expr::Less(a, b), Expr::Less(c, d)) => a.get().equals(c.get())
                && b.get().equals(d.get()),
            (Expr::And(a, b), Expr::And(c, d)) => a.get().equals(c.get())
                && b.get().equals(d.get()),
            (Expr::Or(a, b), Expr::Or(c, d)) => a.get().equals(c.get()) && b.get().equals(d.get()),
            (Expr::Not(a), Expr::Not(c)) => a.get().equals(c.get()),
            (Expr::Length(a), Expr::Length(c)) => a.get().equals(c.get()),
            (Expr::Starts(a, b), Expr::Starts(c, d)) => a.get().equals(c.get())
                && b.get().equals(d.get()),
            _ => false,
        }
    }
}

impl Alike for Expr {
    fn same(&self, other: &Expr) -> bool {
        Expr::same(self, other)
    }
}

impl Duplicate for Expr {
    fn copy(&self, alloc: Global) -> Result<Expr, NoMemory> {
        Expr::copy(self, alloc)
    }
}
