//! A writer, which writes terms by a list of tasks.
ghost use Rattle.std.specs.Prelude.{◌≡◌};
ghost use Rattle.plwrite.specs.Nodes.{node_int};

use crate::form::{Alone, Pair};
use crate::place::{Position, TermPlace};
use crate::task::{Notation, Task};
use crate::text::{Sign, Text};
use plops::operator::{Infix, Operator, Postfix, Prefix};
use plterm::name::Name;
use plterm::node::Node;
use plterm::walk::{TermRef, Terms};
use std::alloc::{AllocError, Global};

/// The text so far, and the tasks that follow, the next one last.
#[derive(Drop)]
pub struct Writer<'a> {
    text: Text,
    tasks: Vec<Task<'a>>,
}

/// The integer that a node is.
fn node_int(node: &Node) -> Option<i64>
    ensures { result ≡ node_int node.now }
{
    match node {
        Node::Int(value) => Some(*value),
        Node::Var(_) | Node::Atom(_) | Node::Compound(_, _) => None,
    }
}

impl<'a> Writer<'a> {
    ghost use Rattle.std.specs.Prelude.{◌≡◌, ◌≤◌, ◌<◌, ◌+◌, ◌-◌, ◌∷◌, [], List, length, IfOk, OnOk, OnSome, MatchOption};
    ghost use Rattle.plterm.specs.declared.node.Node.TheVariants.{Int, Compound};
    ghost use Rattle.plops.specs.declared.operator.Operator.TheVariants.{Before, Between, Behind};
    ghost use Rattle.plwrite.specs.declared.place.Position.TheVariants.{At, Tail};
    ghost use Rattle.plwrite.specs.Places.{whole, argument, left_of, right_of, right_of_prefix, left_of_postfix, needs_brackets, place_of};
    ghost use Rattle.plwrite.specs.Writing.{words, called, behind_bar, opening};
    ghost use Rattle.plterm.specs.Tree.{Tree};
    ghost use Rattle.plterm.specs.Reading.{arity, read};
    ghost use Rattle.plwrite.specs.declared.task.Task.TheVariants.{Mark, OperatorName, Term, Only, Others};
    ghost use Rattle.plwrite.specs.Words.{Word, finished, text_of, sign, prefix, plain, letter_text};
    ghost use Rattle.plwrite.specs.Tasks.{closing_tasks, call_told, functional_told, list_told, curly_told, between_told, before_told, behind_told, letter_told, stack, awaited, awaited_with, Makes, MakesOfNode, WritesNode, AddsTasks, work};

    fn new(alloc: Global) -> Writer<'a>
        ensures text { (ws : List Word) → finished result.text ws ≡ text_of ws }
        ensures tasks { stack result ≡ [] }
    {
        Writer {
            text: Text::new(alloc),
            tasks: Vec::new(alloc),
        }
    }

    fn pop(&mut self) -> Option<Task<'a>>
        ensures text { self.new.text ≡ self.old.text }
        ensures tasks { MatchOption result (stack self.old ≡ []) (λ task. stack self.old ≡ task ∷ stack self.new) }
        ensures count { OnSome result (AddsTasks self.new self.old 1 × (length self.new.tasks.items < length self.old.tasks.items)) }
    {
        self.tasks.pop()
    }

    fn push(&mut self, task: Task<'a>) -> Result<(), AllocError>
        ensures text { self.new.text ≡ self.old.text }
        ensures tasks { OnOk result (stack self.new ≡ task.entry ∷ stack self.old) }
        ensures count { OnOk result (AddsTasks self.old self.new 1) }
    {
        self.tasks.push(task)?;
        Ok(())
    }

    /// Closes a bracket later, where one is needed.
    fn push_closing(&mut self, is_needed: bool) -> Result<(), AllocError>
        ensures text { self.new.text ≡ self.old.text }
        ensures tasks { OnOk result (stack self.new ≡ closing_tasks is_needed (stack self.old)) }
        ensures count { OnOk result (AddsTasks self.old self.new 1) }
    {
        if is_needed {
            self.push(Task::Mark(Sign::Close))
        } else {
            Ok(())
        }
    }

    /// A functor, with so many arguments.
    fn write_call(
        &mut self,
        notation: &Notation<'_>,
        name: &'a Name,
        count: u16,
        position: Position,
    ) -> Result<(), AllocError>
        requires { 0 < count }
        ensures text { OnOk result (Makes notation.now self.old self.new (call_told position name.entry.now (count - 1))) }
        ensures count { OnOk result (AddsTasks self.old self.new 2) }
    {
        self.text.put_call(notation, position, name.as_str())?;
        self.push(Task::Others(count - 1))?;
        self.push(Task::Term(Position::At(TermPlace::argument())))
    }

    /// An infix operator, with its operands.
    fn write_between(
        &mut self,
        notation: &Notation<'_>,
        name: &'a Name,
        op: Infix,
        position: Position,
    ) -> Result<(), AllocError>
        ensures text { OnOk result (Makes notation.now self.old self.new (between_told position name.entry op)) }
        ensures count { OnOk result (AddsTasks self.old self.new 4) }
    {
        let needed = position.place().needs_brackets(Operator::Between(op));
        self.text.put_bar(position)?;
        self.text.put_opening(needed)?;
        self.push_closing(needed)?;
        self.push(Task::Term(Position::At(TermPlace::right_of(op))))?;
        self.push(Task::OperatorName(name))?;
        self.push(Task::Term(Position::At(TermPlace::left_of(op))))
    }

    /// A list's first element and what is left of it.
    fn write_list(&mut self, notation: &Notation<'_>, position: Position) -> Result<(), AllocError>
        ensures text { OnOk result (Makes notation.now self.old self.new (list_told position)) }
        ensures count { OnOk result (AddsTasks self.old self.new 3) }
    {
        match position {
            Position::At(_) => {
                self.text.put_sign(Sign::OpenSquare)?;
                self.push(Task::Mark(Sign::CloseSquare))?;
            }
            Position::Tail => self.text.put_sign(Sign::Comma)?,
        }
        self.push(Task::Term(Position::Tail))?;
        self.push(Task::Term(Position::At(TermPlace::argument())))
    }

    /// A compound of two arguments.
    fn write_pair(
        &mut self,
        notation: &Notation<'_>,
        name: &'a Name,
        position: Position,
    ) -> Result<(), AllocError>
        ensures text { OnOk result (WritesNode notation.now self.old self.new (Term position) (Compound name.entry.now 2)) }
        ensures count { OnOk result (AddsTasks self.old self.new 4) }
    {
        match Pair::of(notation, name.as_str()) {
            Pair::List => self.write_list(notation, position),
            Pair::Between(op) => self.write_between(notation, name, op, position),
            Pair::Functional => self.write_call(notation, name, 2, position),
        }
    }

    fn write_int(
        &mut self,
        notation: &Notation<'_>,
        value: i64,
        position: Position,
    ) -> Result<(), AllocError>
        ensures text { OnOk result (WritesNode notation.now self.old self.new (Term position) (Int value)) }
        ensures count { self.new.tasks ≡ self.old.tasks }
    {
        self.text.put_bar(position)?;
        self.text.put_integer(value)
    }

    /// A functor without arguments.
    fn write_none(
        &mut self,
        notation: &Notation<'_>,
        name: &Name,
        position: Position,
    ) -> Result<(), AllocError>
        ensures text { OnOk result (WritesNode notation.now self.old self.new (Term position) (Compound name.now 0)) }
        ensures count { self.new.tasks ≡ self.old.tasks }
    {
        self.text.put_call(notation, position, name.as_str())?;
        self.text.put_sign(Sign::Close)
    }

    /// A compound of more than two arguments.
    fn write_many(
        &mut self,
        notation: &Notation<'_>,
        name: &'a Name,
        count: u16,
        position: Position,
    ) -> Result<(), AllocError>
        requires { 2 < count }
        ensures text { OnOk result (WritesNode notation.now self.old self.new (Term position) (Compound name.entry.now count)) }
        ensures count { OnOk result (AddsTasks self.old self.new 2) }
    {
        self.write_call(notation, name, count, position)
    }

    fn write_compound(
        &mut self,
        notation: &Notation<'_>,
        name: &'a Name,
        count: u16,
        position: Position,
    ) -> Result<(), AllocError>
        ensures text { OnOk result (WritesNode notation.now self.old self.new (Term position) (Compound name.entry.now count)) }
        ensures count { OnOk result (AddsTasks self.old self.new 4) }
    {
        match count {
            0 => self.write_none(notation, name, position),
            1 => self.push(Task::Only(name, position)),
            2 => self.write_pair(notation, name, position),
            _ => self.write_many(notation, name, count, position),
        }
    }

    /// A term, by its node.
    fn write_node(
        &mut self,
        notation: &Notation<'_>,
        node: &'a Node,
        position: Position,
    ) -> Result<(), AllocError>
        ensures text { OnOk result (WritesNode notation.now self.old self.new (Term position) node.entry.now) }
        ensures count { OnOk result (AddsTasks self.old self.new 4) }
    {
        match node {
            Node::Var(number) => {
                self.text.put_bar(position)?;
                self.text.put_variable(notation.alloc, *number)
            }
            Node::Int(value) => self.write_int(notation, *value, position),
            Node::Atom(name) => self.text.put_atom(notation, position, name.as_str()),
            Node::Compound(name, count) => self.write_compound(notation, name, *count, position),
        }
    }

    /// A term in braces.
    fn write_curly(
        &mut self,
        notation: &Notation<'_>,
        node: &'a Node,
        position: Position,
    ) -> Result<(), AllocError>
        ensures text { OnOk result (MakesOfNode notation.now self.old self.new node.entry.now (curly_told position)) }
        ensures count { OnOk result (AddsTasks self.old self.new 5) }
    {
        self.text.put_bar(position)?;
        self.text.put_sign(Sign::OpenCurly)?;
        self.push(Task::Mark(Sign::CloseCurly))?;
        self.write_node(notation, node, Position::At(TermPlace::whole()))
    }

    /// A functor with one argument.
    fn write_functional(
        &mut self,
        notation: &Notation<'_>,
        name: &Name,
        node: &'a Node,
        position: Position,
    ) -> Result<(), AllocError>
        ensures text { OnOk result (MakesOfNode notation.now self.old self.new node.entry.now (functional_told position name.now)) }
        ensures count { OnOk result (AddsTasks self.old self.new 5) }
    {
        self.text.put_call(notation, position, name.as_str())?;
        self.push(Task::Mark(Sign::Close))?;
        self.write_node(notation, node, Position::At(TermPlace::argument()))
    }

    /// A prefix operator with its operand.
    fn write_before(
        &mut self,
        notation: &Notation<'_>,
        name: &Name,
        op: Prefix,
        node: &'a Node,
        position: Position,
    ) -> Result<(), AllocError>
        ensures text { OnOk result (MakesOfNode notation.now self.old self.new node.entry.now (before_told position name.now op)) }
        ensures count { OnOk result (AddsTasks self.old self.new 5) }
    {
        let needed = position.place().needs_brackets(Operator::Before(op));
        self.text.put_bar(position)?;
        self.text.put_opening(needed)?;
        self.text
            .put_prefix(notation.alloc, notation.style, name.as_str())?;
        self.push_closing(needed)?;
        self.write_node(notation, node, Position::At(TermPlace::right_of_prefix(op)))
    }

    /// A postfix operator with its operand.
    fn write_behind(
        &mut self,
        notation: &Notation<'_>,
        name: &'a Name,
        op: Postfix,
        node: &'a Node,
        position: Position,
    ) -> Result<(), AllocError>
        ensures text { OnOk result (MakesOfNode notation.now self.old self.new node.entry.now (behind_told position name.entry op)) }
        ensures count { OnOk result (AddsTasks self.old self.new 6) }
    {
        let needed = position.place().needs_brackets(Operator::Behind(op));
        self.text.put_bar(position)?;
        self.text.put_opening(needed)?;
        self.push_closing(needed)?;
        self.push(Task::OperatorName(name))?;
        self.write_node(notation, node, Position::At(TermPlace::left_of_postfix(op)))
    }

    /// A variable by its place in the alphabet.
    fn write_letter(
        &mut self,
        notation: &Notation<'_>,
        number: u64,
        position: Position,
    ) -> Result<(), AllocError>
        ensures text { OnOk result (Makes notation.now self.old self.new (letter_told position number)) }
        ensures count { self.new.tasks ≡ self.old.tasks }
    {
        self.text.put_bar(position)?;
        self.text.put_letter(notation.alloc, number)
    }

    /// A compound of one argument, by the argument's node.
    fn write_only(
        &mut self,
        notation: &Notation<'_>,
        name: &'a Name,
        node: &'a Node,
        position: Position,
    ) -> Result<(), AllocError>
        ensures text { OnOk result (WritesNode notation.now self.old self.new (Only name.entry position) node.entry.now) }
        ensures count { OnOk result (AddsTasks self.old self.new 6) }
    {
        match Alone::of(notation, name.as_str(), node_int(node)) {
            Alone::Letter(number) => self.write_letter(notation, number, position),
            Alone::Curly => self.write_curly(notation, node, position),
            Alone::Before(op) => self.write_before(notation, name, op, node, position),
            Alone::Behind(op) => self.write_behind(notation, name, op, node, position),
            Alone::Functional => self.write_functional(notation, name, node, position),
        }
    }

    /// The next term, if one is left.
    fn write_next(
        &mut self,
        notation: &Notation<'_>,
        terms: &mut Terms<'a>,
        position: Position,
    ) -> Result<(), AllocError>
        ensures text { OnOk result (awaited notation.now self.new terms.new ≡ awaited_with notation.now self.old (Term position) terms.old) }
        ensures work { OnOk result (work self.new terms.new ≤ work self.old terms.old) }
    {
        match terms.enter() {
            None => Ok(()),
            Some(node) => self.write_node(notation, node, position),
        }
    }

    /// A compound of which the next term is the only argument.
    fn write_next_only(
        &mut self,
        notation: &Notation<'_>,
        terms: &mut Terms<'a>,
        name: &'a Name,
        position: Position,
    ) -> Result<(), AllocError>
        ensures text { OnOk result (awaited notation.now self.new terms.new ≡ awaited_with notation.now self.old (Only name.entry position) terms.old) }
        ensures work { OnOk result (work self.new terms.new ≤ work self.old terms.old) }
    {
        match terms.enter() {
            None => Ok(()),
            Some(node) => self.write_only(notation, name, node, position),
        }
    }

    /// So many arguments behind another.
    fn write_others(
        &mut self,
        notation: &Notation<'_>,
        terms: &mut Terms<'a>,
        count: u16,
    ) -> Result<(), AllocError>
        ensures text { OnOk result (awaited notation.now self.new terms.new ≡ awaited_with notation.now self.old (Others count) terms.old) }
        ensures work { OnOk result (work self.new terms.new ≤ work self.old terms.old) }
    {
        if count == 0 {
            return self.text.put_sign(Sign::Close);
        }
        match terms.enter() {
            None => Ok(()),
            Some(node) => {
                self.text.put_sign(Sign::Comma)?;
                self.push(Task::Others(count - 1))?;
                self.write_node(notation, node, Position::At(TermPlace::argument()))
            }
        }
    }

    /// What a task asks.
    fn step(
        &mut self,
        notation: &Notation<'_>,
        terms: &mut Terms<'a>,
        task: Task<'a>,
    ) -> Result<(), AllocError>
        ensures text { OnOk result (awaited notation.now self.new terms.new ≡ awaited_with notation.now self.old task.entry terms.old) }
        ensures work { OnOk result (work self.new terms.new ≤ work self.old terms.old) }
    {
        match task {
            Task::Mark(sign) => self.text.put_sign(sign),
            Task::OperatorName(name) => {
                self.text
                    .put_operator(notation.alloc, notation.style, name.as_str())
            }
            Task::Term(position) => self.write_next(notation, terms, position),
            Task::Only(name, position) => self.write_next_only(notation, terms, name, position),
            Task::Others(count) => self.write_others(notation, terms, count),
        }
    }

    /// The text of a term, whose variables have the numbers that they are written with.
    pub fn text_of(notation: &Notation<'_>, term: &TermRef<'a>) -> Result<Vec<u8>, AllocError>
        ensures { IfOk result (λ v. v.items ≡ text_of (words notation.now.ops.now notation.now.style (At whole) term.now [])) }
    {
        let mut terms = term.alone();
        let mut writer = Writer::new(notation.alloc);
        writer.push(Task::Term(Position::At(TermPlace::whole())))?;
        while let Some(task) = writer.pop() {
            writer.step(notation, &mut terms, task)?;
        }
        let Writer { text, tasks: _ } = writer;
        Ok(text.into_bytes())
    }
}
