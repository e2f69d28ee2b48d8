//! The table of operators.
ghost use Rattle.std.specs.Prelude.{◌≡◌, ◌≤◌, ◌<◌, ◌++◌, [], ◌∷◌, IfOk, OnOk, OnErr, length, map, option_copied, List, ℕ, true};
ghost use Rattle.plops.specs.declared.table.Entry.{Entry};
ghost use Rattle.plops.specs.declared.operator.Kind.{Kind};
ghost use Rattle.plops.specs.Tables.{plain, with_operator, is_named, find, prefix_of, infix_of, postfix_of};
ghost use Rattle.plops.specs.Sane.{is_reserved, IsSane};
ghost use Rattle.plops.specs.Changes.{without, is_plain, is_before, is_beside, changed, entry_of, is_rising, put, added, refusal, Adds};
ghost use Rattle.plops.specs.Given.{with_names, iso_table};
ghost use Rattle.plops.specs.Listing.{current_ops, told, told_by};
ghost use Rattle.plops.specs.Ranks.{rank};

use crate::error::OpError;
use crate::operator::{Infix, Kind, Operator, Postfix, Prefix};
use plterm::name::Name;
use std::alloc::{AllocError, Global};
use std::marker::Model;

/// A name, and the operators that it is. It is never both infix and postfix (6.3.4.3).
#[derive(Drop)]
pub struct Entry {
    name: Name,
    as_prefix: Option<Prefix>,
    as_infix: Option<Infix>,
    as_postfix: Option<Postfix>,
}

/// An operator as current_op/3 tells it (8.14.4).
#[derive(Drop)]
pub struct CurrentOp {
    pub priority: u16,
    pub kind: Kind,
    pub name: Name,
}

impl Entry {
    fn named(alloc: Global, name: &str) -> Result<Entry, AllocError>
        ensures { IfOk result (λ e. e ≡ plain name.now) }
    {
        let name = Name::new(alloc, name)?;
        Ok(Entry {
            name,
            as_prefix: None,
            as_infix: None,
            as_postfix: None,
        })
    }

    /// The same entry again.
    fn copied(&self) -> Result<Entry, AllocError>
        ensures { IfOk result (λ e. e ≡ self.now) }
    {
        let name = self.name.copied()?;
        Ok(Entry {
            name,
            as_prefix: self.as_prefix,
            as_infix: self.as_infix,
            as_postfix: self.as_postfix,
        })
    }

    /// The entry with one more operator, in place of one that stands where it does.
    fn with(mut self, operator: Operator) -> Entry
        ensures { result ≡ with_operator self operator }
    {
        match operator {
            Operator::Before(op) => self.as_prefix = Some(op),
            Operator::Between(op) => self.as_infix = Some(op),
            Operator::Behind(op) => self.as_postfix = Some(op),
        }
        self
    }

    /// The entry without the operator that stands where one of this kind does.
    fn without(mut self, kind: Kind) -> Entry
        ensures { result ≡ without self kind }
    {
        match kind {
            Kind::Fx | Kind::Fy => self.as_prefix = None,
            Kind::Xfx | Kind::Xfy | Kind::Yfx => self.as_infix = None,
            Kind::Xf | Kind::Yf => self.as_postfix = None,
        }
        self
    }

    /// The entry once an operator is declared; priority 0 removes it.
    fn changed(self, priority: u16, kind: Kind) -> Entry
        ensures { result ≡ changed priority kind self }
    {
        if priority == 0 {
            self.without(kind)
        } else {
            self.with(Operator::of(priority, kind))
        }
    }

    /// Whether the name is no operator.
    fn is_plain(&self) -> bool
        ensures { result ≡ is_plain self.now }
    {
        self.as_prefix.is_none() && self.as_infix.is_none() && self.as_postfix.is_none()
    }

    /// Whether the name is an operator that forbids one of this kind: an infix beside a postfix.
    fn is_beside(&self, kind: Kind) -> bool
        ensures { result ≡ is_beside kind self.now }
    {
        match kind {
            Kind::Fx | Kind::Fy => false,
            Kind::Xfx | Kind::Xfy | Kind::Yfx => self.as_postfix.is_some(),
            Kind::Xf | Kind::Yf => self.as_infix.is_some(),
        }
    }

    fn is_named(&self, name: &str) -> bool
        ensures { result ≡ is_named name.now self.now }
    {
        self.name.as_str() == name
    }

    /// Whether the name comes before another, byte by byte.
    fn is_before(&self, name: &str) -> bool
        ensures { result ≡ is_before self.now.name name.now }
    {
        self.name.as_str() < name
    }

    /// Adds the operators that the name is: prefix, infix, postfix.
    fn tell(&self, ops: &mut Vec<CurrentOp>) -> Result<(), AllocError>
        ensures { OnOk result (ops.new.items ≡ ops.old.items ++ told_by self.now) }
    {
        if let Some(op) = self.as_prefix {
            ops.push(self.told(op.priority, op.kind())?)?;
        }
        if let Some(op) = self.as_infix {
            ops.push(self.told(op.priority, op.kind())?)?;
        }
        if let Some(op) = self.as_postfix {
            ops.push(self.told(op.priority, op.kind())?)?;
        }
        Ok(())
    }

    fn told(&self, priority: u16, kind: Kind) -> Result<CurrentOp, AllocError>
        ensures { IfOk result (λ op. op ≡ record { priority = priority; kind = kind; name = self.now.name }) }
    {
        let name = self.name.copied()?;
        Ok(CurrentOp {
            priority,
            kind,
            name,
        })
    }
}

/// The operators by name. Contracts see it as the list of its entries, which rise by name.
#[derive(Drop)]
pub struct OpTable {
    alloc: Global,
    entries: Vec<Entry>,
}

impl Model for OpTable {
    ghost use Rattle.std.specs.Prelude.{List};
    ghost use Rattle.plops.specs.declared.table.Entry.{Entry};
    ghost use Rattle.plops.specs.Checks.{IsTable};

    ghost Value = { List Entry };

    ghost view = { λ a. a.entries.items };

    ghost invariant = { λ a. IsTable a.entries.items };
}

impl OpTable {
    /// The operators of program text (6.3.4.4).
    pub fn iso(alloc: Global) -> Result<OpTable, AllocError>
        ensures { IfOk result (λ t. t ≡ iso_table) }
    {
        let entries = iso_entries(alloc)?;
        Ok(OpTable { alloc, entries })
    }

    /// Declares an operator (8.14.3), in place of one of the name that stands where it does. Priority 0 removes.
    pub fn add(&mut self, priority: u16, kind: Kind, name: &str) -> Result<(), OpError>
        ensures { Adds priority kind name.now self.old self.new result }
    {
        if let Some(error) = self.refusal(priority, kind, name) {
            return Err(error);
        }
        change(self.alloc, &mut self.entries, priority, kind, name)?;
        Ok(())
    }

    /// Why an operator is not declared, if it is not.
    fn refusal(&self, priority: u16, kind: Kind, name: &str) -> Option<OpError>
        ensures { result ≡ refusal priority kind name.now self.now }
    {
        if priority > 1200 {
            Some(OpError::Priority)
        } else if name == "," {
            Some(OpError::Comma)
        } else if is_reserved(name) {
            Some(OpError::Reserved)
        } else if priority > 0 && is_beside(&self.entries, kind, name) {
            Some(OpError::InfixPostfix)
        } else {
            None
        }
    }

    /// The prefix operator of a name.
    #[tactic(auto, using(crate::proofs::Checks::is_sane), unfolding(crate::specs::Tables::prefix_of))]
    pub fn prefix(&self, name: &str) -> Option<Prefix>
        ensures value { result ≡ prefix_of self.now name.now }
        ensures sane { IsSane self.now }
    {
        match find(&self.entries, name) {
            None => None,
            Some(entry) => entry.as_prefix,
        }
    }

    /// The infix operator of a name.
    #[tactic(auto, using(crate::proofs::Checks::is_sane), unfolding(crate::specs::Tables::infix_of))]
    pub fn infix(&self, name: &str) -> Option<Infix>
        ensures value { result ≡ infix_of self.now name.now }
        ensures sane { IsSane self.now }
    {
        match find(&self.entries, name) {
            None => None,
            Some(entry) => entry.as_infix,
        }
    }

    /// The postfix operator of a name.
    #[tactic(auto, using(crate::proofs::Checks::is_sane), unfolding(crate::specs::Tables::postfix_of))]
    pub fn postfix(&self, name: &str) -> Option<Postfix>
        ensures value { result ≡ postfix_of self.now name.now }
        ensures sane { IsSane self.now }
    {
        match find(&self.entries, name) {
            None => None,
            Some(entry) => entry.as_postfix,
        }
    }

    /// All operators: by name, byte by byte, and of one name prefix, infix, postfix.
    pub fn list(&self, alloc: Global) -> Result<Vec<CurrentOp>, AllocError>
        ensures told { IfOk result (λ ops. ops.items ≡ current_ops self.now) }
        ensures by_name { is_rising self.now ≡ true }
    {
        let mut ops = Vec::new(alloc);
        for entry in &self.entries {
            entry.tell(&mut ops)?;
        }
        Ok(ops)
    }

    /// The same table again.
    pub fn copy(&self, alloc: Global) -> Result<OpTable, AllocError>
        ensures { IfOk result (λ t. t ≡ self.now) }
    {
        let mut entries = Vec::new(alloc);
        for entry in &self.entries {
            entries.push(entry.copied()?)?;
        }
        Ok(OpTable { alloc, entries })
    }
}

fn is_reserved(name: &str) -> bool
    ensures { result ≡ is_reserved name.now }
{
    name == "|" || name == "[]" || name == "{}"
}

/// How many entries stand before a name.
fn rank(entries: &[Entry], name: &str) -> usize
    requires { is_rising entries.now ≡ true }
    ensures rank { result ≡ rank name.now entries.now }
    ensures within { result ≤ length entries.now }
{
    let mut low = 0;
    let mut high = entries.len();
    while low < high {
        let middle = low + (high - low) / 2;
        if entries[middle].is_before(name) {
            low = middle + 1;
        } else {
            high = middle;
        }
    }
    low
}

/// The entry of a name.
fn find<'a>(entries: &'a [Entry], name: &str) -> Option<&'a Entry>
    requires { is_rising entries.now ≡ true }
    ensures { option_copied result ≡ find entries.now name.now }
{
    match entries.get(rank(entries, name)) {
        Some(entry) if entry.is_named(name) => Some(entry),
        _ => None,
    }
}

/// Whether an operator of a kind would be an infix beside a postfix that the name is, or the other way.
fn is_beside(entries: &[Entry], kind: Kind, name: &str) -> bool
    requires { is_rising entries.now ≡ true }
    ensures { result ≡ is_beside kind (entry_of entries.now name.now) }
{
    match find(entries, name) {
        Some(entry) => entry.is_beside(kind),
        None => false,
    }
}

/// Puts an entry among the others by name, in place of one of the same name; one of no operators is left out.
fn put(entries: &mut Vec<Entry>, entry: Entry) -> Result<(), AllocError>
    requires { is_rising entries.old.items ≡ true }
    ensures put { OnOk result (entries.new.items ≡ put entry entries.old.items) }
    ensures refused { OnErr result (entries.new.items ≡ entries.old.items) }
{
    let place = rank(entries, entry.name.as_str());
    if place < entries.len() && entries[place].is_named(entry.name.as_str()) {
        if entry.is_plain() {
            entries.remove(place);
        } else {
            entries[place] = entry;
        }
    } else if !entry.is_plain() {
        entries.insert(place, entry)?;
    }
    Ok(())
}

/// Declares an operator.
fn change(
    alloc: Global,
    entries: &mut Vec<Entry>,
    priority: u16,
    kind: Kind,
    name: &str,
) -> Result<(), AllocError>
    requires { is_rising entries.old.items ≡ true }
    ensures added { OnOk result (entries.new.items ≡ added priority kind name.now entries.old.items) }
    ensures refused { OnErr result (entries.new.items ≡ entries.old.items) }
{
    let entry = match find(entries, name) {
        Some(entry) => entry.copied()?,
        None => Entry::named(alloc, name)?,
    };
    put(entries, entry.changed(priority, kind))
}

/// Declares operators of one priority and kind.
fn declare(
    alloc: Global,
    entries: &mut Vec<Entry>,
    priority: u16,
    kind: Kind,
    names: &[&str],
) -> Result<(), AllocError>
    requires { is_rising entries.old.items ≡ true }
    ensures names { OnOk result (entries.new.items ≡ with_names priority kind (map (λ n. n.now) names.now) entries.old.items) }
    ensures rising { OnOk result (is_rising entries.new.items ≡ true) }
{
    for name in names {
        change(alloc, entries, priority, kind, name)?;
    }
    Ok(())
}

/// The entries of program text (6.3.4.4), and of the names of directives.
fn iso_entries(alloc: Global) -> Result<Vec<Entry>, AllocError>
    ensures { IfOk result (λ entries. entries.items ≡ iso_table) }
{
    let directives = [
        "dynamic",
        "discontiguous",
        "initialization",
        "multifile",
        "thread_local",
    ];
    let equal = ["=", "\\=", "==", "\\=="];
    let ordered = ["@<", "@=<", "@>", "@>=", "=..", "is"];
    let compared = ["=:=", "=\\=", "<", "=<", ">", ">="];
    let sums = ["+", "-", "/\\", "\\/"];
    let products = ["*", "/", "//", "rem", "mod", "<<", ">>"];
    let mut entries = Vec::new(alloc);
    declare(alloc, &mut entries, 1200, Kind::Xfx, &[":-", "-->"])?;
    declare(alloc, &mut entries, 1200, Kind::Fx, &[":-", "?-"])?;
    declare(alloc, &mut entries, 1150, Kind::Fx, &directives)?;
    declare(alloc, &mut entries, 1100, Kind::Xfy, &[";"])?;
    declare(alloc, &mut entries, 1050, Kind::Xfy, &["->"])?;
    declare(alloc, &mut entries, 1000, Kind::Xfy, &[","])?;
    declare(alloc, &mut entries, 900, Kind::Fy, &["\\+"])?;
    declare(alloc, &mut entries, 700, Kind::Xfx, &equal)?;
    declare(alloc, &mut entries, 700, Kind::Xfx, &ordered)?;
    declare(alloc, &mut entries, 700, Kind::Xfx, &compared)?;
    declare(alloc, &mut entries, 500, Kind::Yfx, &sums)?;
    declare(alloc, &mut entries, 400, Kind::Yfx, &products)?;
    declare(alloc, &mut entries, 200, Kind::Xfx, &["**"])?;
    declare(alloc, &mut entries, 200, Kind::Xfy, &["^"])?;
    declare(alloc, &mut entries, 200, Kind::Fy, &["-", "\\"])?;
    Ok(entries)
}

/// A declaration changes what one name is.
pub fn one_name_changes()
    ensures here { (priority : ℕ) (kind : Kind) (name : List ℕ) (ops : List Entry) →
        entry_of (added priority kind name ops) name ≡ changed priority kind (entry_of ops name) }
    ensures elsewhere { (priority : ℕ) (kind : Kind) (name other : List ℕ) (ops : List Entry) →
        (other ≡ name → ⊥) → find (added priority kind name ops) other ≡ find ops other }
{}

/// An operator is told as it was declared.
pub fn told_as_declared()
    ensures { (priority : ℕ) (kind : Kind) (name : List ℕ) →
        0 < priority → told_by (changed priority kind (plain name)) ≡ told priority kind name ∷ [] }
{}
