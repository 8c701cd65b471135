//! What the words of the command line ask for.

ghost use Rattle.std.specs.Prelude.{◌≡◌, ◌<◌, ◌≤◌, IfSome};
ghost use Rattle.std.specs.Char.{is_ascii_digit};
ghost use Rattle.std.specs.List.{list_all};
ghost use Rattle.std.specs.String.{string_bytes};
ghost use Rattle.geo_app.specs.Tasks.{is_numeral, number_of, request_of, task_of_word, task_with_seed, with_workers, workers_in};
ghost use Rattle.geo_board.specs.declared.limits.TheConstants.{WORKER_LIMIT};

use geo_board::WORKER_LIMIT;

/// What the program is to do.
#[derive(Clone, Copy, PartialEq, Eq, Debug)]
pub enum Task {
    /// To read a script, and to carry out each of its lines.
    Run,
    /// To read certificates, and to check each of them.
    Check,
    /// To carry out the script of a seed, and to count its answers.
    Generate(u32),
    /// To read many scripts, and to carry out each on its own.
    Batch,
}

/// A task, and how many threads may work at it at once, from 1 to 16; of a batch so many scripts run
/// side by side.
#[derive(Clone, Copy, PartialEq, Eq, Debug)]
pub struct Request {
    pub task: Task,
    pub workers: u64,
}

/// What the words ask for; none where they are none that the program knows.
pub(crate) fn request_of(words: &[String]) -> Option<Request>
    ensures request { result ≡ request_of words.now }
    ensures few { IfSome result (λ r. (0 < r.workers) × (r.workers ≤ WORKER_LIMIT)) }
{
    match words {
        [task] => with_workers(task_of_word(task), Some(1)),
        [task, seed] => with_workers(task_with_seed(task, seed), Some(1)),
        [task, option, count] if option.as_str() == "--workers" => {
            with_workers(task_of_word(task), read_workers(count))
        }
        [task, seed, option, count] if option.as_str() == "--workers" => {
            with_workers(task_with_seed(task, seed), read_workers(count))
        }
        _ => None,
    }
}

fn with_workers(task: Option<Task>, workers: Option<u64>) -> Option<Request>
    requires { IfSome workers (λ count. (0 < count) × (count ≤ WORKER_LIMIT)) }
    ensures request { result ≡ with_workers task workers }
    ensures few { IfSome result (λ r. (0 < r.workers) × (r.workers ≤ WORKER_LIMIT)) }
{
    Some(Request {
        task: task?,
        workers: workers?,
    })
}

fn task_of_word(word: &String) -> Option<Task>
    ensures { result ≡ task_of_word (string_bytes word.now) }
{
    match word.as_str() {
        "run" => Some(Task::Run),
        "check" => Some(Task::Check),
        "batch" => Some(Task::Batch),
        _ => None,
    }
}

fn task_with_seed(word: &String, seed: &String) -> Option<Task>
    ensures { result ≡ task_with_seed (string_bytes word.now) (string_bytes seed.now) }
{
    if word.as_str() == "gen" {
        read_number(seed).map(|seed| Task::Generate(seed))
    } else {
        None
    }
}

/// A count from 1 to 16.
fn read_workers(word: &String) -> Option<u64>
    ensures count { result ≡ workers_in (string_bytes word.now) }
    ensures few { IfSome result (λ count. (0 < count) × (count ≤ WORKER_LIMIT)) }
{
    match read_number(word) {
        Some(count) if (1..=WORKER_LIMIT).contains(&u64::from(count)) => Some(u64::from(count)),
        _ => None,
    }
}

/// The number that a word writes, with no zero before its digits.
fn read_number(word: &String) -> Option<u32>
    ensures { result ≡ number_of (string_bytes word.now) }
{
    if is_numeral(word.as_bytes()) {
        word.as_str().parse::<u32>().ok()
    } else {
        None
    }
}

fn is_numeral(bytes: &[u8]) -> bool
    ensures { result ≡ is_numeral bytes.now }
{
    match bytes {
        [] | [b'0', _, ..] => false,
        digits => are_digits(digits),
    }
}

fn are_digits(bytes: &[u8]) -> bool
    ensures { result ≡ list_all is_ascii_digit bytes.now }
{
    bytes.iter().all(|digit| digit.is_ascii_digit())
}
