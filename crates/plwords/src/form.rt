//! What a command line asks for.
ghost use Rattle.std.specs.Prelude.{◌≡◌, codes, option_map};
ghost use Rattle.plwords.specs.Forms.{bare, form_of, number_of, steps_of, texts};

use std::alloc::AllocError;

/// The most steps that a command line may give to a thread.
pub const MOST_STEPS: u64 = 1_099_511_627_776;

/// The steps that a thread has where the command line does not say.
pub const STEPS: u64 = 1_073_741_824;

/// What a command line asks for.
#[derive(Drop)]
pub enum Form<G> {
    /// The report of a run of the program: the most steps that a thread takes, and a goal of main behind those of the program.
    Run { steps: u64, goal: Option<G> },
    /// How many clauses and directives the program has.
    Check,
    /// The listing of the program.
    List,
}

/// Why words are refused.
#[derive(Clone, Copy, Debug, PartialEq, Eq)]
pub enum WordsError {
    /// They are of no form.
    Usage,
    NoMemory,
}

impl From<AllocError> for WordsError {
    ghost use Rattle.plwords.specs.declared.form.WordsError.TheVariants.{NoMemory};

    ghost from_gives = { λ _ e. e ≡ NoMemory };

    fn from(_error: AllocError) -> WordsError {
        WordsError::NoMemory
    }
}

/// The form of this name with these options, if it takes them.
pub(crate) fn form_of<'a>(
    name: Option<&'a str>,
    steps: Option<&'a str>,
    goal: Option<&'a str>,
) -> Option<Form<&'a str>>
    ensures { option_map texts result ≡ form_of (option_map (λ s. s.now) name.entry) (option_map (λ s. s.now) steps.entry) (option_map (λ s. s.now) goal.entry) }
{
    match name? {
        "run" => {
            let steps = steps_of(steps)?;
            Some(Form::Run { steps, goal })
        }
        "check" => bare(Form::Check, steps, goal),
        "list" => bare(Form::List, steps, goal),
        _ => None,
    }
}

/// A form that takes no options.
fn bare<'a>(
    form: Form<&'a str>,
    steps: Option<&'a str>,
    goal: Option<&'a str>,
) -> Option<Form<&'a str>>
    ensures { option_map texts result ≡ bare (texts form.entry) (option_map (λ s. s.now) steps.entry) (option_map (λ s. s.now) goal.entry) }
{
    match (steps, goal) {
        (None, None) => Some(form),
        _ => None,
    }
}

/// The number of steps, if it is one.
fn steps_of(steps: Option<&str>) -> Option<u64>
    ensures { result ≡ steps_of (option_map (λ s. s.now) steps.entry) }
{
    match steps {
        None => Some(STEPS),
        Some(text) => number_of(text),
    }
}

/// The number of steps that a text is.
fn number_of(text: &str) -> Option<u64>
    ensures { result ≡ number_of text.now }
{
    match text.parse::<u64>() {
        Ok(number) => {
            if 1 <= number && number <= MOST_STEPS {
                Some(number)
            } else {
                None
            }
        }
        Err(_) => None,
    }
}
