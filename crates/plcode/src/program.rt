//! The code of a program.
ghost use Rattle.std.specs.Prelude.{◌≡◌, ◌<◌, ◌≤◌, ◌++◌, [], List, length, map, get_or, IfOk, IfSome, IfNone, OnOk};
ghost use Rattle.plterm.specs.declared.indicator.Indicator.{Indicator as OfIndicator};
ghost use Rattle.plnames.specs.Entries.{row_of};
ghost use Rattle.plnames.specs.Names.{rows};
ghost use Rattle.platoms.specs.Names.{IsTable, Extends};
ghost use Rattle.plcode.specs.declared.callee.Callee.{Callee as OfCallee};
ghost use Rattle.plcode.specs.declared.callee.Callee.TheVariants.{Unknown};
ghost use Rattle.plcode.specs.declared.callee.Entry.{Entry as OfEntry};
ghost use Rattle.plcode.specs.declared.callee.Number.{Number as OfNumber};
ghost use Rattle.plcode.specs.declared.callee.Number.TheVariants.{Atom, Functor};
ghost use Rattle.plcode.specs.Laying.{IsLaid};
ghost use Rattle.plcode.specs.Steps.{goals_from, step_at, text, Meets};
ghost use Rattle.plcode.specs.Bodies.{IsCode};
ghost use Rattle.plcode.specs.Callees.{callee_at, found, of_clauses, of_kind, row_callee, statics, AreEntries, IsNumbered, IsProgramCode};

use crate::callee::{Callee, Callees, Entry, Number, number_of};
use crate::code::Code;
use crate::compile::compile_procedures;
use crate::draft::Draft;
use crate::index::Procedure;
use crate::node::Node;
use crate::op::Step;
use platoms::names::Names;
use plclause::clause::Clause;
use plnames::kind::Kind;
use plnames::rows::ROWS;
use plprogram::program::Program;
use plterm::name::Name;
use std::alloc::{AllocError, Global};
use std::marker::Model;
use std::sync::Arc;

/// What a kind is called as.
fn kind_callee(kind: Kind) -> Callee
    ensures { result ≡ of_kind kind }
{
    match kind {
        Kind::Control(control) => Callee::Control(control),
        Kind::BuiltIn(predicate) => Callee::BuiltIn(predicate),
    }
}

/// What the procedure at a place is called as.
fn procedure_callee(place: u32, clauses: &[Clause]) -> Callee
    ensures { result ≡ of_clauses place clauses.now }
{
    match clauses {
        [] => Callee::Unknown,
        [_, ..] => Callee::Static(place),
    }
}

/// The number of a procedure by its name's text, which gets its number.
fn number_of_text(
    alloc: Global,
    names: &mut Names,
    text: &'static str,
    arity: u16,
) -> Result<Option<Number>, AllocError>
    requires { IsTable names.old }
    ensures number { IfOk result (λ n. IsNumbered names.new (record { name = text.now; arity = arity }) n) }
    ensures extends { OnOk result (Extends names.old names.new) }
    ensures table { OnOk result (IsTable names.new) }
{
    let name = Name::new(alloc, text)?;
    number_of(names, &name, arity)
}

/// Puts the entries of rows of the table of names, whose names get their numbers, where there are none.
fn put_rows(
    alloc: Global,
    names: &mut Names,
    entries: &mut Vec<Entry>,
    rows: &[(&'static str, u16, Kind)],
) -> Result<(), AllocError>
    requires table { IsTable names.old }
    requires none { entries.old.items ≡ [] }
    ensures entries { OnOk result (AreEntries names.new (map row_callee (map row_of rows.now)) entries.new.items) }
    ensures extends { OnOk result (Extends names.old names.new) }
    ensures table { OnOk result (IsTable names.new) }
{
    for &(name, arity, kind) in rows {
        let number = number_of_text(alloc, names, name, arity)?;
        entries.push(Entry {
            number,
            callee: kind_callee(kind),
        })?;
    }
    Ok(())
}

/// Adds the entries of a program's procedures, whose names get their numbers.
fn add_procedures(
    names: &mut Names,
    entries: &mut Vec<Entry>,
    program: &Program,
) -> Result<(), AllocError>
    requires { IsTable names.old }
    ensures entries { OnOk result ((ws : List (OfIndicator × OfCallee)) → AreEntries names.old ws entries.old.items → AreEntries names.new (ws ++ statics 0 program.now.procedures) entries.new.items) }
    ensures extends { OnOk result (Extends names.old names.new) }
    ensures table { OnOk result (IsTable names.new) }
{
    for index in 0..program.procedure_count() {
        let (indicator, clauses) = program.procedure_at(index);
        let Ok(place) = u32::try_from(index) else {
            return Err(AllocError);
        };
        let number = number_of(names, &indicator.name, indicator.arity)?;
        entries.push(Entry {
            number,
            callee: procedure_callee(place, clauses),
        })?;
    }
    Ok(())
}

/// What is called by each number in a program, whose names get their numbers.
fn program_callees(
    alloc: Global,
    names: &mut Names,
    program: &Program,
) -> Result<Callees, AllocError>
    requires { IsTable names.old }
    ensures callees { IfOk result (λ m. (es : List OfEntry) × (AreEntries names.new (map row_callee rows ++ statics 0 program.now.procedures) es × ((n : OfNumber) → callee_at m n ≡ found Unknown es n))) }
    ensures extends { OnOk result (Extends names.old names.new) }
    ensures table { OnOk result (IsTable names.new) }
{
    let mut entries = Vec::new(alloc);
    put_rows(alloc, names, &mut entries, ROWS)?;
    add_procedures(names, &mut entries, program)?;
    let callees = Callees::of(alloc, entries)?;
    Ok(callees)
}

/// Compiles the procedures of a program, and finds what is called by each number in it.
fn compiled(
    alloc: Global,
    code: &mut Draft,
    program: &Program,
) -> Result<(Vec<Procedure>, Callees), AllocError>
    requires { IsCode (text code.old) }
    ensures { IfOk result (λ made. IsProgramCode program.now (record { text = text code.new; procedures = made.0.items; callees = made.1 })) }
{
    let procedures = compile_procedures(alloc, code, program)?;
    let callees = program_callees(alloc, &mut code.names, program)?;
    Ok((procedures, callees))
}

/// The code of a program: the names, nodes and steps of its clauses, its static procedures, in their order, and what is called by
/// each number, also of names that a table gives later.
#[derive(Drop)]
pub struct ProgramCode {
    names: Names,
    code: Code,
    procedures: Vec<Procedure>,
    callees: Callees,
}

impl Model for ProgramCode {
    ghost use Rattle.plcode.specs.Steps.{text_of};
    ghost use Rattle.plcode.specs.Bodies.{IsCode};
    ghost use Rattle.plcode.specs.Callees.{Compiled};

    ghost Value = { Compiled };

    ghost view = { λ a. record { text = text_of a.names a.code; procedures = a.procedures.items; callees = a.callees } };

    ghost invariant = { λ a. IsCode (text_of a.names a.code) };
}

impl ProgramCode {
    /// Compiles a program, in time linear in the nodes of its clauses. Its names are frozen: a copy of them copies no name.
    pub fn new(alloc: Global, program: &Program) -> Result<ProgramCode, AllocError>
        ensures code { IfOk result (λ made. IsProgramCode program.now made) }
        ensures end { IfOk result (λ made. goals_from made.text 0 0 ≡ []) }
    {
        let mut draft = Draft::new(alloc)?;
        let (procedures, callees) = compiled(alloc, &mut draft, program)?;
        let (code, names) = Code::of(draft);
        let names = names.frozen(alloc)?;
        Ok(ProgramCode {
            names,
            code,
            procedures,
            callees,
        })
    }

    /// The names that the program is compiled with. More may come in a copy of them.
    pub fn names(&self) -> &Names
        ensures is { result.now ≡ self.now.text.names }
        ensures table { IsTable result.now }
    {
        &self.names
    }

    /// What the atom with a number is called as.
    #[inline(always)]
    pub fn callee_of_atom(&self, atom: u32) -> Callee
        ensures { result ≡ callee_at self.now.callees (Atom atom) }
    {
        self.callees.at(Number::Atom(atom))
    }

    /// What a compound with a functor of a number is called as.
    #[inline(always)]
    pub fn callee_of_functor(&self, functor: u32) -> Callee
        ensures { result ≡ callee_at self.now.callees (Functor functor) }
    {
        self.callees.at(Number::Functor(functor))
    }

    /// The procedure of the program's text at a place, if there is one.
    #[inline(always)]
    pub fn procedure(&self, place: u32) -> Option<&Procedure>
        ensures some { IfSome result (λ p. (place < length self.now.procedures) × (p.now ≡ get_or self.now.procedures place [])) }
        ensures none { IfNone result (length self.now.procedures ≤ place) }
    {
        self.procedures.get(place as usize)
    }

    /// The step at a place, and past the last one the end of a sequence; the one behind it stands at the place before.
    #[inline(always)]
    pub fn step(&self, place: u32) -> Step
        ensures is { result ≡ step_at self.now.text place }
        ensures meets { Meets self.now.text place result }
        ensures code { IsCode self.now.text }
    {
        self.code.step(place)
    }

    /// The nodes.
    #[inline(always)]
    pub fn nodes(&self) -> &[Node]
        ensures is { result.now ≡ self.now.text.nodes }
        ensures laid { IsLaid self.now.text.names self.now.text.nodes }
    {
        self.code.nodes()
    }
}

/// The code of a program that many hold: a copy of it is the same one.
#[derive(Drop)]
pub struct SharedCode {
    code: Arc<ProgramCode>,
}

impl Model for SharedCode {
    ghost use Rattle.std.specs.Arc.{arc_value};
    ghost use Rattle.plcode.specs.Callees.{Compiled};

    ghost Value = { Compiled };

    ghost view = { λ a. arc_value a.code };
}

impl SharedCode {
    /// The code, which is shared from now on.
    pub fn new(alloc: Global, code: ProgramCode) -> Result<SharedCode, AllocError>
        ensures { IfOk result (λ shared. shared ≡ code) }
    {
        let code = Arc::new(alloc, code)?;
        Ok(SharedCode { code })
    }

    /// The code itself.
    #[inline(always)]
    pub fn code(&self) -> &ProgramCode
        ensures { result.now ≡ self.now }
    {
        &*self.code
    }

    /// The same code again, of which nothing is copied.
    pub fn copied(&self) -> Result<SharedCode, AllocError>
        ensures { IfOk result (λ shared. shared ≡ self.now) }
    {
        let code = Arc::try_clone(&self.code)?;
        Ok(SharedCode { code })
    }
}
