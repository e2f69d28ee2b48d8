//! Keys of first arguments, by which clauses are passed over.
ghost use Rattle.std.specs.Prelude.{◌≡◌, length};
ghost use Rattle.plevent.specs.Keys.{first_key, fits_atom, fits_functor, fits_int, key_of, may_fit};

use plterm::name::Name;
use plterm::walk::{Shape, TermRef, Terms};

/// What a goal's first argument is: anything, as a variable is, a number, an atom, or a compound of a name and so many
/// arguments. A goal without arguments has the key of anything.
#[derive(Drop)]
pub enum Key {
    Any,
    Int(i64),
    Atom(Name),
    Functor(Name, u16),
}

impl Key {
    /// Whether a clause with this head may be for a goal of this key: where its first argument has the key too, or is a
    /// variable, or there is none.
    pub fn fits(&self, head: &TermRef<'_>) -> bool
        ensures { result ≡ may_fit self.now (first_key head.now) }
    {
        match head.shape() {
            Shape::Compound(_, mut args) => match args.next_term() {
                Some(first) => self.fits_argument(&first),
                None => true,
            },
            Shape::Var(_) | Shape::Int(_) | Shape::Atom(_) => true,
        }
    }

    fn fits_argument(&self, first: &TermRef<'_>) -> bool
        ensures { result ≡ may_fit self.now (key_of first.now) }
    {
        match first.shape() {
            Shape::Var(_) => true,
            Shape::Int(value) => self.fits_int(value),
            Shape::Atom(name) => self.fits_atom(name),
            Shape::Compound(name, args) => self.fits_compound(name, &args),
        }
    }

    fn fits_int(&self, value: i64) -> bool
        ensures { result ≡ fits_int self.now value }
    {
        match self {
            Key::Any => true,
            Key::Int(wanted) => *wanted == value,
            Key::Atom(_) | Key::Functor(_, _) => false,
        }
    }

    fn fits_atom(&self, name: &Name) -> bool
        ensures { result ≡ fits_atom self.now name.now }
    {
        match self {
            Key::Any => true,
            Key::Atom(wanted) => wanted.is_same(name),
            Key::Int(_) | Key::Functor(_, _) => false,
        }
    }

    fn fits_compound(&self, name: &Name, args: &Terms<'_>) -> bool
        ensures { result ≡ fits_functor self.now name.now (length args.now) }
    {
        match self {
            Key::Any => true,
            Key::Functor(wanted, arity) => wanted.is_same(name) && args.len() == *arity as usize,
            Key::Int(_) | Key::Atom(_) => false,
        }
    }
}
