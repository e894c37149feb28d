// The top call: from the words of the command to the status of the program.
ghost use Rattle.std.specs.Prelude.{◌≡◌, ◌⊎◌, ◌↔◌, ℕ, Err, IsErrOf, map, string_bytes, List};
ghost use Rattle.gate_world.specs.Causes.{Rose, Later, SayAlone};
ghost use Rattle.gate_world.specs.Tape.{Adds};
ghost use Rattle.gate_words.specs.Pages.{page_text};
ghost use Rattle.gate_words.specs.Task.{IsTask};
ghost use Rattle.gate_words.specs.declared.task.Task.{Task};
ghost use Rattle.gate_serving.specs.Run.{Stood};
ghost use Rattle.gateway.specs.Appending.{AppendsOnce};
ghost use Rattle.gateway.specs.Checking.{ChecksByReading};
ghost use Rattle.gateway.specs.Complete.{AnswersAll, CompletesServing, CompletesShow};
ghost use Rattle.gateway.specs.Program.{EndsDone, EndsFailed, EndsOnce, EndsStore, IsApart, ChecksStore, IsSaid, IsWholeRun, Performs, RunsExplain, RunsShow, RunsStore, TellsReport, front_failed, words_refused};
ghost use Rattle.gateway.specs.ReadWords.{AreRead};

use crate::check::{Report, report_on};
use crate::explain::explain_one;
use crate::laws::{
    obeyed_programs_tell, programs_append_once, programs_check_by_reading, quiet_programs_tell,
};
use crate::show::show_one;
use gate_serving::{ClientOutcome, Door, FrontError, Gate, serve};
use gate_words::{Page, Place, Task, WordsError, read_words};
use gate_world::{Failed, Watcher, World};
use octets::Text;
use small_store::StoreMachine;
use std::alloc::Global;
use store_sessions::serve_sessions;

/// The program did what it was asked.
pub const STATUS_DONE: u8 = 0;
/// The words are refused.
pub const STATUS_WORDS: u8 = 2;
/// Out of memory: before a client came, while its message was shown, or while it was served by a small store.
pub const STATUS_MEMORY: u8 = 5;
/// The front failed.
pub const STATUS_FRONT: u8 = 6;

// Says on standard error that the front failed.
fn end_failed<W: World>(world: &mut W) -> u8
    ensures said { Adds (W.tape world.old) (W.tape world.new) (IsSaid front_failed) }
    ensures status { result ≡ 6 }
    ensures alone { SayAlone (W.faults world.old) (W.faults world.new) }
    ensures hidden { W.hidden world.new ≡ W.hidden world.old }
{
    let _ = world.say(b"jmapgate: front failed\n");
    STATUS_FRONT
}

// Says on standard error that the words are refused.
fn end_refused<W: World>(world: &mut W) -> u8
    ensures said { Adds (W.tape world.old) (W.tape world.new) (IsSaid words_refused) }
    ensures status { result ≡ 2 }
    ensures alone { SayAlone (W.faults world.old) (W.faults world.new) }
    ensures hidden { W.hidden world.new ≡ W.hidden world.old }
{
    let _ = world.say(b"jmapgate: words refused\n");
    STATUS_WORDS
}

// Ends the serving of one client on standard input.
fn end_once<W: World>(world: &mut W, served: ClientOutcome) -> u8
    ensures said { Adds (W.tape world.old) (W.tape world.new) (EndsOnce served result) }
    ensures statuses { (result ≡ 0) ⊎ (result ≡ 6) }
    ensures failed { result ≡ 6 → (served ≡ ClientOutcome.Part) ⊎ (served ≡ ClientOutcome.AcceptFault) }
    ensures alone { SayAlone (W.faults world.old) (W.faults world.new) }
    ensures hidden { W.hidden world.new ≡ W.hidden world.old }
{
    match served {
        ClientOutcome::Whole => STATUS_DONE,
        ClientOutcome::NoMore => STATUS_DONE,
        ClientOutcome::Part => end_failed(world),
        ClientOutcome::AcceptFault => end_failed(world),
    }
}

// Opens a gate and answers one client.
fn once<W: World>(alloc: Global, world: &mut W, place: &Place) -> u8
    ensures run { Adds (W.tape world.old) (W.tape world.new)
        (Performs (Task.Once place.now) (W.hidden world.old) (W.faults world.old) (W.faults world.new) result) }
    ensures statuses { (result ≡ 0) ⊎ (result ≡ 5) ⊎ (result ≡ 6) }
    ensures front { result ≡ 6 → Rose (W.faults world.old).front (W.faults world.new).front }
    ensures later { Later (W.faults world.old) (W.faults world.new) }
    ensures hidden { W.hidden world.new ≡ W.hidden world.old }
{
    match Gate::open(alloc, world, Door::Bare, place) {
        Err(_) => STATUS_MEMORY,
        Ok(mut gate) => {
            let served = gate.answer_one(alloc, world);
            end_once(world, served)
        }
    }
}

// Ends the serving of clients over HTTP.
fn end_serving<W: World>(world: &mut W, status: u8) -> u8
    requires { (status ≡ 0) ⊎ (status ≡ 6) }
    ensures said { Adds (W.tape world.old) (W.tape world.new) (λ es. EndsDone result es ⊎ EndsFailed result es) }
    ensures status { result ≡ status }
    ensures alone { SayAlone (W.faults world.old) (W.faults world.new) }
    ensures hidden { W.hidden world.new ≡ W.hidden world.old }
{
    if status == STATUS_FRONT {
        end_failed(world)
    } else {
        STATUS_DONE
    }
}

// Opens a gate and answers clients over HTTP.
fn serve_clients<W: World>(alloc: Global, world: &mut W, place: &Place, most: u64) -> u8
    ensures run { Adds (W.tape world.old) (W.tape world.new)
        (λ es. (listen : List ℕ) → Performs (Task.Serve place.now listen most) (W.hidden world.old) (W.faults world.old) (W.faults world.new) result es) }
    ensures statuses { (result ≡ 0) ⊎ (result ≡ 5) ⊎ (result ≡ 6) }
    ensures front { result ≡ 6 → Rose (W.faults world.old).front (W.faults world.new).front }
    ensures later { Later (W.faults world.old) (W.faults world.new) }
    ensures hidden { W.hidden world.new ≡ W.hidden world.old }
{
    match Gate::open(alloc, world, Door::Http, place) {
        Err(_) => STATUS_MEMORY,
        Ok(mut gate) => {
            let status = serve(alloc, &mut gate, world, most);
            end_serving(world, status)
        }
    }
}

// Ends the serving of a small store's clients.
fn end_store<W: World>(world: &mut W, served: u8) -> u8
    requires { (served ≡ 0) ⊎ (served ≡ 5) ⊎ (served ≡ 6) }
    ensures said { Adds (W.tape world.old) (W.tape world.new) (EndsStore result) }
    ensures status { result ≡ served }
    ensures alone { SayAlone (W.faults world.old) (W.faults world.new) }
    ensures hidden { W.hidden world.new ≡ W.hidden world.old }
{
    if served == STATUS_FRONT {
        end_failed(world)
    } else {
        served
    }
}

// Serves a small store in memory.
fn store<W: World>(alloc: Global, world: &mut W, most: u64) -> u8
    ensures run { Adds (W.tape world.old) (W.tape world.new) (RunsStore most (W.faults world.old) (W.faults world.new) result) }
    ensures statuses { (result ≡ 0) ⊎ (result ≡ 5) ⊎ (result ≡ 6) }
    ensures front { result ≡ 6 → Rose (W.faults world.old).front (W.faults world.new).front }
    ensures later { Later (W.faults world.old) (W.faults world.new) }
    ensures apart { (W.faults world.new).link ≡ (W.faults world.old).link }
    ensures hidden { W.hidden world.new ≡ W.hidden world.old }
{
    match StoreMachine::new(alloc) {
        Err(_) => STATUS_MEMORY,
        Ok(mut machine) => {
            machine.is_tellable();
            let served = serve_sessions(alloc, &mut machine, world, most);
            end_store(world, served)
        }
    }
}

// Shows one client its message.
fn show<W: World>(alloc: Global, world: &mut W) -> u8
    ensures run { Adds (W.tape world.old) (W.tape world.new) (RunsShow result) }
    ensures statuses { (result ≡ 0) ⊎ (result ≡ 5) ⊎ (result ≡ 6) }
    ensures front { result ≡ 6 → Rose (W.faults world.old).front (W.faults world.new).front }
    ensures later { Later (W.faults world.old) (W.faults world.new) }
    ensures apart { (W.faults world.new).link ≡ (W.faults world.old).link }
    ensures hidden { W.hidden world.new ≡ W.hidden world.old }
{
    match show_one(alloc, world) {
        Ok(()) => STATUS_DONE,
        Err(FrontError::Memory) => STATUS_MEMORY,
        Err(FrontError::Failed) => end_failed(world),
    }
}

// Tells one client a page.
fn explain<W: World>(world: &mut W, page: Page) -> u8
    ensures run { Adds (W.tape world.old) (W.tape world.new) (RunsExplain (page_text page) result) }
    ensures statuses { (result ≡ 0) ⊎ (result ≡ 6) }
    ensures front { result ≡ 6 → Rose (W.faults world.old).front (W.faults world.new).front }
    ensures later { Later (W.faults world.old) (W.faults world.new) }
    ensures apart { (W.faults world.new).link ≡ (W.faults world.old).link }
    ensures hidden { W.hidden world.new ≡ W.hidden world.old }
{
    match explain_one(world, page.text().as_bytes()) {
        Ok(()) => STATUS_DONE,
        Err(Failed) => end_failed(world),
    }
}

// Tells one client the report on a store.
fn tell_report<W: World>(world: &mut W, report: &Report) -> u8
    requires { (report.now.status ≡ 0) ⊎ (report.now.status ≡ 8) }
    ensures told { Adds (W.tape world.old) (W.tape world.new) (TellsReport report.now.text.items report.now.status result) }
    ensures statuses { (result ≡ 0) ⊎ (result ≡ 6) ⊎ (result ≡ 8) }
    ensures front { result ≡ 6 → Rose (W.faults world.old).front (W.faults world.new).front }
    ensures later { Later (W.faults world.old) (W.faults world.new) }
    ensures hidden { W.hidden world.new ≡ W.hidden world.old }
{
    match explain_one(world, report.text.as_slice()) {
        Ok(()) => report.status,
        Err(Failed) => end_failed(world),
    }
}

// Checks a store, and tells one client what was found out.
fn check<W: World>(alloc: Global, world: &mut W, store: &Text, user: &Text) -> u8
    ensures run { Adds (W.tape world.old) (W.tape world.new)
        (Performs (Task.Check store.now user.now) (W.hidden world.old) (W.faults world.old) (W.faults world.new) result) }
    ensures statuses { (result ≡ 0) ⊎ (result ≡ 5) ⊎ (result ≡ 6) ⊎ (result ≡ 8) }
    ensures front { result ≡ 6 → Rose (W.faults world.old).front (W.faults world.new).front }
    ensures later { Later (W.faults world.old) (W.faults world.new) }
    ensures hidden { W.hidden world.new ≡ W.hidden world.old }
{
    match report_on(
        alloc,
        world,
        store.as_str().as_bytes(),
        user.as_str().as_bytes(),
    ) {
        Err(_) => STATUS_MEMORY,
        Ok(report) => tell_report(world, &report),
    }
}

// Does what the task asks.
fn perform<W: World>(alloc: Global, world: &mut W, task: &Task) -> u8
    ensures run { Adds (W.tape world.old) (W.tape world.new)
        (Performs task.now (W.hidden world.old) (W.faults world.old) (W.faults world.new) result) }
    ensures statuses { (result ≡ 0) ⊎ (result ≡ 5) ⊎ (result ≡ 6) ⊎ (result ≡ 8) }
    ensures store { result ≡ 8 → ChecksStore task.now }
    ensures front { result ≡ 6 → Rose (W.faults world.old).front (W.faults world.new).front }
    ensures later { Later (W.faults world.old) (W.faults world.new) }
    ensures apart { IsApart task.now → (W.faults world.new).link ≡ (W.faults world.old).link }
    ensures hidden { W.hidden world.new ≡ W.hidden world.old }
{
    match task {
        Task::Serve {
            place,
            connections,
            ..
        } => serve_clients(alloc, world, place, *connections),
        Task::Once { place } => once(alloc, world, place),
        Task::Store { connections, .. } => store(alloc, world, *connections),
        Task::Show => show(alloc, world),
        Task::Check { store, user } => check(alloc, world, store, user),
        Task::Explain { page } => explain(world, *page),
    }
}

// Ends a run whose words weren't read as a task.
fn end_unread<W: World>(world: &mut W, error: WordsError) -> u8
    ensures run { Adds (W.tape world.old) (W.tape world.new) (λ es. (words : List (List ℕ)) → AreRead words (Err error)
        → IsWholeRun words (W.hidden world.old) (W.faults world.old) (W.faults world.new) result es) }
    ensures statuses { (result ≡ 2) ⊎ (result ≡ 5) }
    ensures refused { (result ≡ 2) ↔ (error ≡ WordsError.Refused) }
    ensures alone { SayAlone (W.faults world.old) (W.faults world.new) }
    ensures hidden { W.hidden world.new ≡ W.hidden world.old }
{
    match error {
        WordsError::Refused => end_refused(world),
        WordsError::Memory => STATUS_MEMORY,
    }
}

/// Does what words ask that were read so, the program's own name left out, over the outside; the status that the program ends with.
/// It is the call that the program makes; each clause is that of `run` over whatever words were read so.
pub fn run_read<W: World>(alloc: Global, read: Result<Task, WordsError>, world: &mut W) -> u8
    ensures run { Adds (W.tape world.old) (W.tape world.new) (λ es. (words : List (List ℕ)) → AreRead words read
        → IsWholeRun words (W.hidden world.old) (W.faults world.old) (W.faults world.new) result es) }
    ensures complete { Adds (W.tape world.old) (W.tape world.new) (λ es. (words : List (List ℕ)) → AreRead words read
        → CompletesServing words (W.hidden world.old) result es) }
    ensures quiet { Stood (W.faults world.old) (W.faults world.new)
        → Adds (W.tape world.old) (W.tape world.new) (λ es. (words : List (List ℕ)) → AreRead words read → AnswersAll words (W.hidden world.old) result es) }
    ensures shown { (result ≡ 6 → ⊥)
        → Adds (W.tape world.old) (W.tape world.new) (λ es. (words : List (List ℕ)) → AreRead words read → CompletesShow words result es) }
    ensures appends { Adds (W.tape world.old) (W.tape world.new) (λ es. (words : List (List ℕ)) → AreRead words read
        → AppendsOnce words (W.hidden world.old) result es) }
    ensures reads { Adds (W.tape world.old) (W.tape world.new) (λ es. (words : List (List ℕ)) → AreRead words read
        → ChecksByReading words (W.hidden world.old) result es) }

    ensures statuses { (result ≡ 0) ⊎ (result ≡ 2) ⊎ (result ≡ 5) ⊎ (result ≡ 6) ⊎ (result ≡ 8) }
    ensures refused { (result ≡ 2) ↔ IsErrOf read WordsError.Refused }
    ensures store { result ≡ 8 → (words : List (List ℕ)) (task : Task) → AreRead words read → IsTask words task → ChecksStore task }
    ensures memory { IsErrOf read WordsError.Memory → result ≡ 5 }
    ensures front { result ≡ 6 → Rose (W.faults world.old).front (W.faults world.new).front }

    ensures later { Later (W.faults world.old) (W.faults world.new) }
    ensures apart { (words : List (List ℕ)) (task : Task) → AreRead words read → IsTask words task → IsApart task
        → (W.faults world.new).link ≡ (W.faults world.old).link }
    ensures hidden { W.hidden world.new ≡ W.hidden world.old }
{
    obeyed_programs_tell();
    quiet_programs_tell();
    programs_append_once();
    programs_check_by_reading();
    match read {
        Ok(task) => perform(alloc, world, &task),
        Err(error) => end_unread(world, error),
    }
}

/// Does what the words ask, the program's own name left out, over the outside; the status that the program ends with.
/// No watcher is told anything yet.
pub fn run<W: World>(words: &[String], world: &mut W, watchers: &mut Vec<Box<dyn Watcher>>) -> u8
    // Where the tape is told, it has grown by a run over these words, and the counts of faults bear what the run blames.
    ensures run { Adds (W.tape world.old) (W.tape world.new)
        (IsWholeRun (map string_bytes words.now) (W.hidden world.old) (W.faults world.old) (W.faults world.new) result) }

    // A law over that run of `serve` or `once`: of whom nothing is blamed and for whom the store obeyed takes the whole response over the mail that is
    // served then, whatever comes of the others; or memory ran out, and they take the text of that.
    ensures complete { Adds (W.tape world.old) (W.tape world.new) (CompletesServing (map string_bytes words.now) (W.hidden world.old) result) }

    // Where no count of faults rises, whoever comes to `serve` or `once` and for whom the store obeyed takes that response, and a small
    // store's clients are served to their ends; or memory ran out.
    ensures quiet { Stood (W.faults world.old) (W.faults world.new)
        → Adds (W.tape world.old) (W.tape world.new) (AnswersAll (map string_bytes words.now) (W.hidden world.old) result) }

    // Whoever gives a message to be shown, while the front does not fail, is sent its Email object and a line end; or memory
    // ran out, and nothing was sent.
    ensures shown { (result ≡ 6 → ⊥) → Adds (W.tape world.old) (W.tape world.new) (CompletesShow (map string_bytes words.now) result) }

    // A law over that run: for each creation or import of an Email the store takes octets of one APPEND at most, and of none for anything else that a call
    // is to change. Either comes to a new Email only by that APPEND, which was answered OK with a usable UID. A link life has no APPENDs besides these.
    ensures appends { Adds (W.tape world.old) (W.tape world.new) (AppendsOnce (map string_bytes words.now) (W.hidden world.old) result) }

    // A law over a run of `check`: all that the store takes is a front of the texts of commands that only read.
    ensures reads { Adds (W.tape world.old) (W.tape world.new) (ChecksByReading (map string_bytes words.now) (W.hidden world.old) result) }

    // When each status comes, in every world: 8 of a check alone. Out of memory in the words comes before their refusal.
    ensures statuses { (result ≡ 0) ⊎ (result ≡ 2) ⊎ (result ≡ 5) ⊎ (result ≡ 6) ⊎ (result ≡ 8) }
    ensures store { result ≡ 8 → (task : Task) → IsTask (map string_bytes words.now) task → ChecksStore task }
    ensures words { result ≡ 2 → (task : Task) → IsTask (map string_bytes words.now) task → ⊥ }
    ensures refused { ((task : Task) → IsTask (map string_bytes words.now) task → ⊥) → (result ≡ 2) ⊎ (result ≡ 5) }
    ensures front { result ≡ 6 → Rose (W.faults world.old).front (W.faults world.new).front }

    // What stays. A small store in memory, showing a message and explaining have nothing to do with a store over the link.
    ensures later { Later (W.faults world.old) (W.faults world.new) }
    ensures apart { (task : Task) → IsTask (map string_bytes words.now) task → IsApart task → (W.faults world.new).link ≡ (W.faults world.old).link }
    ensures hidden { W.hidden world.new ≡ W.hidden world.old }
    ensures watchers { watchers.new ≡ watchers.old }
{
    let alloc: Global = *watchers.allocator();
    let read = read_words(alloc, words);
    run_read(alloc, read, world)
}
