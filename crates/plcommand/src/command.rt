//! The top call.
ghost use Rattle.std.specs.Prelude.{◌≡◌, ◌+◌, ◌≤◌, ◌↔◌, ◌⊎◌, ℕ, List, length, Some, IfSome, IfOk, IfErr, IsNone, option_map};
ghost use Rattle.std.specs.Io.KnownBytes.{Appends};
ghost use Rattle.plio.specs.Causes.{Rose, TookCount, TookAtMost, AppendsPrefix};
ghost use Rattle.plops.specs.Given.{iso_table};
ghost use Rattle.plload.specs.Loading.{Loads, Refuses};
ghost use Rattle.plload.specs.Told.{Tells};
ghost use Rattle.plload.specs.declared.error.RefusalKind.{RefusalKind};
ghost use Rattle.plhist.specs.Report.{report_text};
ghost use Rattle.plhist.specs.Status.{status_of as status_of_journal};
ghost use Rattle.plterm.specs.Tree.{Tree};
ghost use Rattle.plwords.specs.declared.form.Form.{Form};
ghost use Rattle.plwords.specs.declared.form.Form.TheVariants as forms;
ghost use Rattle.plwords.specs.Forms.{texts};
ghost use Rattle.plcommand.specs.Words.{IsCommand, IsOf, Means};
ghost use Rattle.plcommand.specs.Outcome.{text_limit, Gave, HasRun, Comes, IsOutcome, Wrote, IsAnswer, IsAnswerOrMemory, IsUnread, IsShort, IsFormCause, IsWordsCause, IsReadCause, check_text};

use itoa::Buffer;
use plhist::{History, Status, refusal_text, report_text, status_of};
use plio::{Gate, ReadError, Sink, Source, read_all, write_all};
use pllibrary::library::with_library;
use plload::error::{LoadError, RefusalKind};
use plload::goal::read_goal;
use plload::load::{listing, load};
use plops::table::OpTable;
use plprogram::program::Program;
use plrun::run_schedule;
use plterm::term::Term;
use plwords::form::{Form, WordsError};
use plwords::words::Words;
use std::alloc::{AllocError, Global};
use std::sync::Wait;
use std::thread::Threads;

/// The most bytes of a program's text.
pub const TEXT_LIMIT: usize = 16_777_216;

/// What a call of the program came to: its status, and the history of the run if there was one that came to its end.
#[derive(Drop)]
pub struct Report {
    pub status: Status,
    pub history: Option<History>,
}

/// What a form makes of a text: the output, unless memory gave out; the status where all of it is written; and the
/// history of a run.
#[derive(Drop)]
pub struct Answer {
    output: Result<Vec<u8>, AllocError>,
    status: Status,
    history: Option<History>,
}

/// What a form asks for, its goal read; or the status of what was in the way.
fn form_of(alloc: Global, form: Form<&str>) -> Result<Form<Term>, Status>
    ensures means { IfOk result (Means (texts form.entry)) }
    ensures cause { IfErr result (IsFormCause (texts form.entry)) }
{
    match form {
        Form::Run { steps, goal } => run_form(alloc, steps, goal),
        Form::Check => Ok(Form::Check),
        Form::List => Ok(Form::List),
    }
}

/// A run, with a goal if there is one; or the status of what was in the way.
fn run_form(alloc: Global, steps: u64, goal: Option<&str>) -> Result<Form<Term>, Status>
    ensures means { IfOk result (Means (forms.Run steps (option_map (λ s. s.now) goal.entry))) }
    ensures cause { IfErr result (IsFormCause (forms.Run steps (option_map (λ s. s.now) goal.entry))) }
{
    match goal {
        None => Ok(Form::Run { steps, goal: None }),
        Some(text) => goal_form(alloc, steps, text),
    }
}

/// A run with a goal; or the status of what was in the way.
fn goal_form(alloc: Global, steps: u64, text: &str) -> Result<Form<Term>, Status>
    ensures means { IfOk result (Means (forms.Run steps (Some text.now))) }
    ensures cause { IfErr result (IsFormCause (forms.Run steps (Some text.now))) }
{
    match read_goal(alloc, text) {
        Ok(Some(goal)) => Ok(Form::Run {
            steps,
            goal: Some(goal),
        }),
        Ok(None) => Err(Status::Usage),
        Err(AllocError) => Err(Status::NoMemory),
    }
}

/// What the words ask for; or the status of what was in the way.
fn asked(alloc: Global, words: &Words) -> Result<Form<Term>, Status>
    ensures asks { IfOk result (λ form. IsOf form words.now) }
    ensures cause { IfErr result (IsWordsCause words.now) }
{
    match words.command() {
        Ok(command) => form_of(alloc, command.form),
        Err(WordsError::Usage) => Err(Status::Usage),
        Err(WordsError::NoMemory) => Err(Status::NoMemory),
    }
}

/// The text that a source holds; or the status of what was in the way.
fn text_of<S: Source>(alloc: Global, source: &mut S) -> Result<Vec<u8>, Status>
    ensures text { IfOk result (λ text. Gave (S.left source.old) (S.left source.new) text.items) }
    ensures short { IfOk result (λ _. TookAtMost (S.left source.old) (S.left source.new) text_limit) }
    ensures cause { IfErr result (IsReadCause (S.left source.old) (S.left source.new) (S.faults source.old) (S.faults source.new)) }
{
    match read_all(alloc, source, TEXT_LIMIT) {
        Ok(text) => Ok(text),
        Err(ReadError::ReadFault) => Err(Status::ReadFault),
        Err(ReadError::TooLong) => Err(Status::TooLong),
        Err(ReadError::NoMemory) => Err(Status::NoMemory),
    }
}

/// The report of a history, under the operators of a report's terms.
fn report_of(alloc: Global, history: &History) -> Result<Vec<u8>, AllocError>
    ensures { IfOk result (λ text. text.items ≡ report_text iso_table history.now) }
{
    let operators = OpTable::iso(alloc)?;
    report_text(alloc, history, &operators)
}

/// What is told of a run that came to its end: its history, also where memory gives out for the report.
fn told_of(alloc: Global, history: History) -> Answer
    ensures history { result.history ≡ Some history }
    ensures status { result.status ≡ status_of_journal history.journal }
    ensures report { IfOk result.output (λ text. text.items ≡ report_text iso_table history) }
{
    Answer {
        output: report_of(alloc, &history),
        status: status_of(&history.journal),
        history: Some(history),
    }
}

/// The history of a run of a program of so many steps, with the library and with a goal of its own behind those of the text, and
/// its report.
fn run_answer(
    alloc: Global,
    text: &[u8],
    steps: u64,
    goal: Option<Term>,
) -> Result<Answer, LoadError>
    ensures says { IfOk result (IsOutcome text.now (forms.Run steps goal)) }
    ensures refused { IfErr result (Tells text.now) }
{
    let loaded = load(alloc, text)?;
    let whole = with_library(alloc, loaded)?;
    let program = whole.with_goal(goal)?;
    let history = run_schedule(alloc, &program, steps, &[])?;
    Ok(told_of(alloc, history))
}

/// How many clauses and directives a program has.
fn check_answer(alloc: Global, text: &[u8]) -> Result<Answer, LoadError>
    ensures says { IfOk result (IsOutcome text.now forms.Check) }
    ensures refused { IfErr result (Tells text.now) }
{
    let program = load(alloc, text)?;
    Ok(Answer {
        output: counts_of(alloc, &program),
        status: Status::Done,
        history: None,
    })
}

/// The line that tells how many clauses and directives a program has.
fn counts_of(alloc: Global, program: &Program) -> Result<Vec<u8>, AllocError>
    ensures { IfOk result (λ text. text.items ≡ check_text program.now) }
{
    let mut buffer = Buffer::new();
    let mut text = Vec::from_slice(alloc, b"clauses ")?;
    text.extend_from_slice(buffer.format(program.clause_count()).as_bytes())?;
    text.extend_from_slice(b" directives ")?;
    text.extend_from_slice(buffer.format(program.directive_count()).as_bytes())?;
    text.push(b'\n')?;
    Ok(text)
}

/// The listing of a program.
fn list_answer(alloc: Global, text: &[u8]) -> Result<Answer, LoadError>
    ensures says { IfOk result (IsOutcome text.now forms.List) }
    ensures refused { IfErr result (Tells text.now) }
{
    let lines = listing(alloc, text)?;
    Ok(Answer {
        output: Ok(lines),
        status: Status::Done,
        history: None,
    })
}

/// The line that tells where a text is refused, and why.
fn refusal_answer(alloc: Global, line: u64, column: u64, kind: RefusalKind) -> Answer
    ensures { (text : List ℕ) (form : Form Tree) → Loads text (Refuses line column kind) → IsOutcome text form result }
{
    Answer {
        output: refusal_text(alloc, line, column, kind),
        status: Status::Refused { line, column, kind },
        history: None,
    }
}

/// What a form makes of a text that loads; else why it does not load.
fn loaded_answer(alloc: Global, form: Form<Term>, text: &[u8]) -> Result<Answer, LoadError>
    ensures says { IfOk result (IsOutcome text.now form) }
    ensures refused { IfErr result (Tells text.now) }
{
    match form {
        Form::Run { steps, goal } => run_answer(alloc, text, steps, goal),
        Form::Check => check_answer(alloc, text),
        Form::List => list_answer(alloc, text),
    }
}

/// What a form makes of a text.
fn answer_of(alloc: Global, form: Form<Term>, text: &[u8]) -> Result<Answer, AllocError>
    ensures { IfOk result (IsOutcome text.now form) }
{
    match loaded_answer(alloc, form, text) {
        Ok(answer) => Ok(answer),
        Err(LoadError::Refused { line, column, kind }) => {
            Ok(refusal_answer(alloc, line, column, kind))
        }
        Err(LoadError::NoMemory) => Err(AllocError),
    }
}

/// Writes an output; `whole` is the status where all of it is written.
fn write_output<K: Sink>(out: &mut K, output: &Result<Vec<u8>, AllocError>, whole: Status) -> Status
    ensures { (text : List ℕ) → IfOk output.now (λ o. o.items ≡ text) → Wrote (K.holds out.old) (K.holds out.new) (K.faults out.old) (K.faults out.new) text whole result }
{
    match output {
        Ok(bytes) => match write_all(out, bytes) {
            Ok(()) => return whole,
            Err(_) => return Status::WriteFault,
        },
        Err(AllocError) => return Status::NoMemory,
    }
}

/// Writes the output of an answer. What the answer tells of a run is told, also where memory or the output gives out.
fn write_report<K: Sink>(out: &mut K, answer: Answer) -> Report
    ensures wrote { (text : List ℕ) → IfOk answer.output (λ o. o.items ≡ text) → Wrote (K.holds out.old) (K.holds out.new) (K.faults out.old) (K.faults out.new) text answer.status result.status }
    ensures history { result.history ≡ answer.history }
{
    let Answer {
        output,
        status,
        history,
    } = answer;
    Report {
        status: write_output(out, &output, status),
        history,
    }
}

/// The form and the text that it is asked for; or the status of what was in the way.
fn answer_for<S: Source>(alloc: Global, form: Form<Term>, source: &mut S) -> Result<Answer, Status>
    ensures answer { IfOk result (λ a. (text : List ℕ) × Gave (S.left source.old) (S.left source.new) text × IsOutcome text form a) }
    ensures short { IfOk result (λ _. TookAtMost (S.left source.old) (S.left source.new) text_limit) }
    ensures cause { IfErr result (IsReadCause (S.left source.old) (S.left source.new) (S.faults source.old) (S.faults source.new)) }
{
    let text = text_of(alloc, source)?;
    match answer_of(alloc, form, &text) {
        Ok(made) => Ok(made),
        Err(AllocError) => Err(Status::NoMemory),
    }
}

/// All that the program does: it reads the program that the words name, and runs it and writes the report, tells how many
/// clauses and directives it has, or lists it.
///
/// The first refusal counts, in this order: the words, reading, loading, the run, writing. `second` is a source for forms
/// that read two, and is not read now; `rt` and `gate` serve runs of several workers, of which there is one now.
pub fn prolog_command<R: Threads + Wait + Sync, S: Source, T: Source, K: Sink, G: Gate + Sync>(
    _rt: &R,
    alloc: Global,
    words: &Words,
    program: &mut S,
    second: &mut T,
    out: &mut K,
    _gate: &G,
) -> Report
    // 64: the words are none of the forms, and the source is as it was. Where they are none, memory may give out first.
    ensures usage { result.status ≡ Status.Usage → IsCommand words.now → ⊥ }
    ensures refused { (IsCommand words.now → ⊥) → (result.status ≡ Status.Usage) ⊎ (result.status ≡ Status.NoMemory) }
    ensures unread { (IsCommand words.now → ⊥) → program.new ≡ program.old }
    ensures second { second.new ≡ second.old }

    // 66 and 67: the source failed in this call, or gave more than a program may have.
    ensures read { result.status ≡ Status.ReadFault → Rose (S.faults program.old) (S.faults program.new) }
    ensures long { result.status ≡ Status.TooLong → TookCount (S.left program.old) (S.left program.new) (text_limit + 1) }
    ensures short { IsShort result.status → TookAtMost (S.left program.old) (S.left program.new) text_limit }
    ensures silent { IsUnread result.status → out.new ≡ out.old }

    // A history is one legal journal of a run that is over, and for each thread one run, which follows its search: with the
    // steps and the goal of the words. None is told where no text was read.
    ensures unread_history { IsUnread result.status → IsNone result.history }
    ensures history { IfSome result.history (HasRun words.now (S.left program.old) (S.left program.new)) }

    // 0, 1, 2, 4 and 65: the form's output is written whole, and the status is that of the run or of the refusal.
    ensures answer { IsAnswer result.status → (form : Form Tree) × IsOf form words.now × (output : List ℕ)
        × Comes form (S.left program.old) (S.left program.new) result.history output result.status × Appends (K.holds out.old) (K.holds out.new) output }

    // 71 and 74: nothing is written, or a prefix of the form's output; at 74 the sink failed in this call.
    ensures part { (out.new ≡ out.old) ⊎ ((form : Form Tree) × IsOf form words.now × (output : List ℕ) × (whole : Status)
        × Comes form (S.left program.old) (S.left program.new) result.history output whole × AppendsPrefix (K.holds out.old) (K.holds out.new) output) }
    ensures write { result.status ≡ Status.WriteFault → Rose (K.faults out.old) (K.faults out.new) }

    // 74: the text was read and the form has made something of it, which stands: a run's history is told.
    ensures kept { result.status ≡ Status.WriteFault → (form : Form Tree) × IsOf form words.now × (output : List ℕ) × (whole : Status)
        × Comes form (S.left program.old) (S.left program.new) result.history output whole }

    // A known text that is short enough gets its answer, unless a source or the sink failed or memory gave out.
    ensures complete { (text : List ℕ) → IsCommand words.now → S.left program.old ≡ Some text → length text ≤ text_limit →
        (Rose (S.faults program.old) (S.faults program.new) → ⊥) → (Rose (K.faults out.old) (K.faults out.new) → ⊥) → IsAnswerOrMemory result.status }
    ensures refuses { (text : List ℕ) (line column : ℕ) (kind : RefusalKind) → S.left program.old ≡ Some text → Loads text (Refuses line column kind) → IsNone result.history }
{
    let form = match asked(alloc, words) {
        Ok(form) => form,
        Err(status) => {
            return Report {
                status,
                history: None,
            };
        }
    };
    match answer_for(alloc, form, program) {
        Ok(answer) => write_report(out, answer),
        Err(status) => Report {
            status,
            history: None,
        },
    }
}
