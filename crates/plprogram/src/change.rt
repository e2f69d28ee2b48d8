//! What a text or a goal changes of the operators and the flags: op/3 and set_prolog_flag/2.
ghost use Rattle.std.specs.Prelude.{◌≡◌, ℕ, take, IfOk, OnOk, OnErr, option_copied};
ghost use Rattle.plprogram.specs.Changes.{declared, Declares, until_refused, kind_named, quotes_named, unknown_named, is_read_only, flag_named};

use crate::settings::Unknown;
use plops::error::OpError;
use plops::flag::Quotes;
use plops::operator::Kind;
use plops::table::OpTable;
use plterm::name::Name;
use std::alloc::AllocError;

/// A name that is not made an operator, and why.
#[derive(Drop)]
pub struct Refusal {
    pub cause: OpError,
    pub name: Name,
}

/// A flag that can be set, with a value that it can have (ISO/IEC 13211-1 7.11.2).
#[derive(Clone, Copy, Debug, PartialEq, Eq)]
pub enum Flag {
    /// `double_quotes`.
    Quotes(Quotes),
    /// `unknown`.
    Unknown(Unknown),
}

/// Why a flag is not set (8.17.1.3).
#[derive(Clone, Copy, Debug, PartialEq, Eq)]
pub enum FlagError {
    /// There is no flag of that name.
    NoFlag,
    /// It keeps its value.
    ReadOnly,
    /// The value is none of the flag's.
    NoValue,
}

/// Makes names operators of a priority and a kind, one after another (8.14.3), or tells the first that is refused. The names before
/// that one are operators then, and, where memory gives out, so many of them as were made.
pub fn declare(
    operators: &mut OpTable,
    priority: u16,
    kind: Kind,
    names: &[Name],
) -> Result<Result<(), Refusal>, AllocError>
    ensures says { IfOk result (Declares (declared priority kind names.now operators.old) operators.new) }
    ensures table { OnOk result (operators.new ≡ until_refused priority kind names.now operators.old) }
    ensures err { OnErr result ((made : ℕ) × (operators.new ≡ until_refused priority kind (take made names.now) operators.old)) }
{
    for name in names {
        match operators.add(priority, kind, name.as_str()) {
            Ok(()) => {}
            Err(OpError::NoMemory) => return Err(AllocError),
            Err(cause) => {
                let name = name.copied()?;
                return Ok(Err(Refusal { cause, name }));
            }
        }
    }
    Ok(Ok(()))
}

/// The kind of operator that a name says (6.3.4.1).
pub fn kind_named(name: &str) -> Option<Kind>
    ensures { result ≡ kind_named name.now }
{
    match name {
        "xfx" => Some(Kind::Xfx),
        "xfy" => Some(Kind::Xfy),
        "yfx" => Some(Kind::Yfx),
        "fx" => Some(Kind::Fx),
        "fy" => Some(Kind::Fy),
        "xf" => Some(Kind::Xf),
        "yf" => Some(Kind::Yf),
        _ => None,
    }
}

/// The flag of a name with the value that another name says, if it can be set so.
pub fn flag_named(flag: &str, value: Option<&Name>) -> Result<Flag, FlagError>
    ensures { result ≡ flag_named flag.now (option_copied value.entry) }
{
    match flag {
        "double_quotes" => match quotes_named(value) {
            Some(quotes) => Ok(Flag::Quotes(quotes)),
            None => Err(FlagError::NoValue),
        },
        "unknown" => match unknown_named(value) {
            Some(unknown) => Ok(Flag::Unknown(unknown)),
            None => Err(FlagError::NoValue),
        },
        _ if is_read_only(flag) => Err(FlagError::ReadOnly),
        _ => Err(FlagError::NoFlag),
    }
}

/// The value of the flag `double_quotes` that a name says (7.11.2.5).
fn quotes_named(value: Option<&Name>) -> Option<Quotes>
    ensures { result ≡ quotes_named (option_copied value.entry) }
{
    match value?.as_str() {
        "codes" => Some(Quotes::Codes),
        "chars" => Some(Quotes::Chars),
        "atom" => Some(Quotes::Atom),
        _ => None,
    }
}

/// The value of the flag `unknown` that a name says (7.11.2.4).
fn unknown_named(value: Option<&Name>) -> Option<Unknown>
    ensures { result ≡ unknown_named (option_copied value.entry) }
{
    match value?.as_str() {
        "error" => Some(Unknown::Error),
        "fail" => Some(Unknown::Fail),
        _ => None,
    }
}

/// Whether a flag of this name keeps its value (7.11.1).
fn is_read_only(flag: &str) -> bool
    ensures { result ≡ is_read_only flag.now }
{
    match flag {
        "bounded"
        | "max_integer"
        | "min_integer"
        | "integer_rounding_function"
        | "max_arity"
        | "occurs_check" => true,
        _ => false,
    }
}
