//! A run of the program over given devices.
ghost use Rattle.std.specs.Prelude.{◌≡◌, ◌+◌, ◌-◌, ◌^◌, ◌<◌, ◌≤◌, ◌⊎◌, true, false};
ghost use Rattle.std.specs.Prelude.{List, [], ℕ, None, Some, Ok, map, option_map, string_bytes};
ghost use Rattle.ion_meter.specs.Devices.{Counted};
ghost use Rattle.ion_meter.specs.declared.fault.Fault.{Fault};
ghost use Rattle.ion_meter.specs.declared.limits.Limits.{Limits};
ghost use Rattle.ion_meter.specs.Limits.{AreChecked};
ghost use Rattle.ion_transcode.specs.Calls.{HasRoom};
ghost use Rattle.ion_tool.specs.Serving.{fault_line, label_of, Gets, IsServed, IsFileServed};
ghost use Rattle.ion_tool.specs.Serving.{standing, AreServed, IsInTurn, IsJobServed, IsRunServed, MayGoOn};
ghost use Rattle.ion_tool.specs.Serving.{IsCatalogServed, IsLoaded, IsOpenLoaded, IsUnread, IsHelped, IsUsageError};
ghost use Rattle.ion_tool.specs.Serving.{file_input, just_opened};
ghost use Rattle.ion_tool.specs.Words.{AsksRun, IsRun};
ghost use Rattle.ion_tool.specs.declared.words.Task.{Task};

use crate::act::act;
use crate::counter::LineCounter;
use crate::files::{FileSource, UsedFile};
use crate::lines::{put, report, report_at, report_catalog, say_unopened};
use crate::words::{Job, Request, Task, file_of, read_words};
use ion_meter::device::{Broken, Input, Output, write_all};
use ion_meter::fault::Fault;
use ion_meter::limits::Limits;
use ion_meter::meter::Meter;
use ion_meter::stream::FromRead;
use ion_symbols::catalog::Catalog;
use ion_transcode::load::load_catalog;
use std::alloc::{AllocError, Global};

/// Gives the text that was asked for, and the status.
fn give_help<O: Output, E: Output>(text: &[u8], out: &mut O, err: &mut E) -> u8
    requires out_failures { O.failure_count out.old < 2 ^ 64 - 1 }
    requires err_failures { E.failure_count err.old < 2 ^ 64 - 1 }
    ensures status { (result ≡ 0) ⊎ (result ≡ 3) }
    ensures given { Gets O.Output text.now out.old out.new }
    ensures whole { result ≡ 0
        → (O.failure_count out.new ≡ O.failure_count out.old) × (err.new ≡ err.old) }
    ensures cut { result ≡ 3 → (O.failure_count out.new ≡ O.failure_count out.old + 1)
        × Gets E.Output (fault_line Fault.WriteFault) err.old err.new }
{
    match write_all(out, text) {
        Ok(()) => 0,
        Err(Broken) => report(Err(Fault::WriteFault), err),
    }
}

/// Says what is wrong with the words, and gives the status.
pub fn give_usage<E: Output>(text: &[u8], err: &mut E) -> u8
    requires { E.failure_count err.old < 2 ^ 64 - 1 }
    ensures status { result ≡ 2 }
    ensures said { Gets E.Output text.now err.old err.new }
{
    let _ = put(err, text);
    2
}

/// How a stream is run, and what stands before a line on it, if anything does.
#[derive(Clone, Copy)]
struct Manner<'a> {
    task: Task,
    limits: Limits,
    label: Option<&'a str>,
}

/// Runs over the input, and says on standard error how it failed, if it did.
fn serve_input<I: Input, O: Output, E: Output>(
    meter: &mut Meter<Global>,
    catalog: &Catalog<Global>,
    manner: Manner<'_>,
    input: I,
    out: O,
    mut err: E,
) -> (u8, I, O, E)
    requires held { meter.old.held ≤ 2 ^ 48 }
    requires countable { meter.old.refused < 2 ^ 64 - 1 }
    requires in_failures { I.failure_count input < 2 ^ 64 - 1 }
    requires out_failures { O.failure_count out < 2 ^ 64 - 1 }
    requires err_failures { E.failure_count err < 2 ^ 64 - 1 }
    requires checked { AreChecked manner.limits }
    ensures served { IsServed I.Input O.Output E.Output
        (label_of (option_map (λ s. s.now) manner.entry.label))
        catalog.now manner.entry.task manner.entry.limits
        meter.old meter.new input result.1 out result.2 err result.3 result.0 }
    ensures status { (result.0 ≡ 0) ⊎ ((result.0 ≡ 1) ⊎ (result.0 ≡ 3)) }
{
    let Manner {
        task,
        limits,
        label,
    } = manner;
    let input = match LineCounter::new(meter, task.lines, input) {
        Ok(counter) => counter,
        Err(input) => {
            let status = report_at(label, Err(Fault::Memory), None, &mut err);
            return (status, input, out, err);
        }
    };
    let (answer, mut input, out) = act(meter, catalog, task, limits, label, input, out);
    let (answer, position) = input.place(answer);
    let status = report_at(label, answer, position, &mut err);
    (status, input.release(meter), out, err)
}

/// Runs over a file, hands it back, and says on standard error how the run failed, if it did.
fn serve_file<F: FileSource, O: Output, E: Output>(
    meter: &mut Meter<Global>,
    catalog: &Catalog<Global>,
    manner: Manner<'_>,
    files: &mut F,
    name: &str,
    out: O,
    mut err: E,
) -> (u8, O, E)
    requires held { meter.old.held ≤ 2 ^ 48 }
    requires countable { meter.old.refused < 2 ^ 64 - 1 }
    requires out_failures { O.failure_count out < 2 ^ 64 - 1 }
    requires err_failures { E.failure_count err < 2 ^ 64 - 1 }
    requires checked { AreChecked manner.limits }
    ensures served { IsFileServed F.gives F.closes F.File.remaining O.Output E.Output
        (label_of (option_map (λ s. s.now) manner.entry.label))
        catalog.now manner.entry.task manner.entry.limits name.now
        meter.old meter.new files.old files.new out result.1 err result.2 result.0 }
    ensures status { (result.0 ≡ 0) ⊎ ((result.0 ≡ 1) ⊎ (result.0 ≡ 3)) }
{
    match files.open_named(name) {
        Ok(file) => {
            let input = FromRead::new(file);
            let (status, device, out, err) = serve_input(meter, catalog, manner, input, out, err);
            files.close(UsedFile::from_device(device));
            (status, out, err)
        }
        Err(reason) => {
            say_unopened(name, reason.as_str(), &mut err);
            (3, out, err)
        }
    }
}

/// Runs over the file that is named, or over the input.
fn serve_one<F: FileSource, I: Input, O: Output, E: Output>(
    meter: &mut Meter<Global>,
    catalog: &Catalog<Global>,
    manner: Manner<'_>,
    files: &mut F,
    name: Option<&str>,
    input: I,
    out: O,
    err: E,
) -> (u8, I, O, E)
    requires held { meter.old.held ≤ 2 ^ 48 }
    requires countable { meter.old.refused < 2 ^ 64 - 1 }
    requires in_failures { I.failure_count input < 2 ^ 64 - 1 }
    requires out_failures { O.failure_count out < 2 ^ 64 - 1 }
    requires err_failures { E.failure_count err < 2 ^ 64 - 1 }
    requires checked { AreChecked manner.limits }
    ensures served { IsRunServed F.gives F.closes F.File.remaining I.Input O.Output E.Output
        (label_of (option_map (λ s. s.now) manner.entry.label))
        catalog.now manner.entry.task manner.entry.limits (option_map (λ s. s.now) name.entry)
        (standing meter.old files.old input out err)
        (standing meter.new files.new result.1 result.2 result.3) result.0 }
    ensures status { (result.0 ≡ 0) ⊎ ((result.0 ≡ 1) ⊎ (result.0 ≡ 3)) }
{
    let Some(name) = name else {
        return serve_input(meter, catalog, manner, input, out, err);
    };
    let (status, out, err) = serve_file(meter, catalog, manner, files, name, out, err);
    (status, input, out, err)
}

/// Whether another run may begin after one before which so many writes had failed.
fn may_go_on<I: Input, O: Output, E: Output>(
    meter: &Meter<Global>,
    input: &I,
    failed: u64,
    out: &O,
    err: &E,
) -> bool
    ensures yes { result ≡ true → MayGoOn I.Input O.Output E.Output failed
        meter.now input.now out.now err.now }
    ensures no { result ≡ false → ¬ MayGoOn I.Input O.Output E.Output failed
        meter.now input.now out.now err.now }
{
    if out.failures() != failed {
        return false;
    }
    if meter.refused() == u64::MAX {
        return false;
    }
    if input.failures() == u64::MAX {
        return false;
    }
    err.failures() != u64::MAX
}

/// Runs over the file of each word in turn, or over the input for the word `-`, with the word
/// before the lines on it. A run that fails to write is the last.
fn serve_each<F: FileSource, I: Input, O: Output, E: Output>(
    meter: &mut Meter<Global>,
    catalog: &Catalog<Global>,
    job: &Job,
    files: &mut F,
    mut input: I,
    mut out: O,
    mut err: E,
) -> (u8, I, O, E)
    requires room { HasRoom (2 ^ 48) 0 meter.old }
    requires in_failures { I.failure_count input < 2 ^ 64 - 1 }
    requires out_failures { O.failure_count out < 2 ^ 64 - 1 }
    requires err_failures { E.failure_count err < 2 ^ 64 - 1 }
    requires checked { AreChecked job.now.limits }
    ensures served { AreServed F.gives F.closes F.File.remaining I.Input O.Output E.Output
        catalog.now job.now.task job.now.limits (map string_bytes job.now.files.items)
        (standing meter.old files.old input out err)
        (standing meter.new files.new result.1 result.2 result.3) result.0 }
    ensures in_turn { O.observable out
        → IsInTurn F.gives F.closes F.File.remaining I.Input O.Output E.Output
        catalog.now job.now.task job.now.limits (map string_bytes job.now.files.items)
        (standing meter.old files.old input out err)
        (standing meter.new files.new result.1 result.2 result.3) }
    ensures status { (result.0 ≡ 0) ⊎ ((result.0 ≡ 1) ⊎ (result.0 ≡ 3)) }
{
    let mut status: u8 = 0;
    let words = job.files.as_slice();
    for word in words {
        let word = word.as_str();
        let manner = Manner {
            task: job.task,
            limits: job.limits,
            label: Some(word),
        };
        let failed = out.failures();
        let name = file_of(word);
        let served = serve_one(meter, catalog, manner, files, name, input, out, err);
        status = status.max(served.0);
        input = served.1;
        out = served.2;
        err = served.3;
        if !may_go_on(meter, &input, failed, &out, &err) {
            return (status, input, out, err);
        }
    }
    (status, input, out, err)
}

/// Runs over the input, over the one file that was named, or over each of several.
fn serve_job<F: FileSource, I: Input, O: Output, E: Output>(
    meter: &mut Meter<Global>,
    catalog: &Catalog<Global>,
    job: Job,
    files: &mut F,
    input: I,
    out: O,
    err: E,
) -> (u8, I, O, E)
    requires room { HasRoom (2 ^ 48) 0 meter.old }
    requires in_failures { I.failure_count input < 2 ^ 64 - 1 }
    requires out_failures { O.failure_count out < 2 ^ 64 - 1 }
    requires err_failures { E.failure_count err < 2 ^ 64 - 1 }
    requires checked { AreChecked job.limits }
    ensures served { IsJobServed F.gives F.closes F.File.remaining I.Input O.Output E.Output
        catalog.now job.task job.limits (map string_bytes job.files.items)
        meter.old meter.new files.old files.new
        input result.1 out result.2 err result.3 result.0 }
    ensures status { (result.0 ≡ 0) ⊎ ((result.0 ≡ 1) ⊎ (result.0 ≡ 3)) }
{
    let manner = Manner {
        task: job.task,
        limits: job.limits,
        label: None,
    };
    match job.files.as_slice() {
        [] => serve_one(meter, catalog, manner, files, None, input, out, err),
        [word] => {
            let name = file_of(word.as_str());
            serve_one(meter, catalog, manner, files, name, input, out, err)
        }
        [_, _, ..] => serve_each(meter, catalog, &job, files, input, out, err),
    }
}

/// Loads a catalogue from a file, and hands the file back.
fn load_file<F: FileSource>(
    meter: &mut Meter<Global>,
    limits: Limits,
    files: &mut F,
    file: F::File,
) -> Result<Catalog<Global>, Fault>
    requires held { meter.old.held ≤ 2 ^ 48 }
    requires countable { meter.old.refused < 2 ^ 64 - 1 }
    requires checked { AreChecked limits }
    ensures { (after : Counted F.File) × F.closes files.old after files.new
        × IsLoaded (file_input F.File.remaining) limits meter.old meter.new
        (just_opened file) after result }
{
    let (loaded, device) = load_catalog(meter, limits, FromRead::new(file));
    files.close(UsedFile::from_device(device));
    loaded
}

/// Loads the catalogue of a file, by its meter, and runs with its tables, which it gives back.
fn serve_loaded<F: FileSource, I: Input, O: Output, E: Output>(
    meter: &mut Meter<Global>,
    tables: &mut Meter<Global>,
    file: F::File,
    job: Job,
    files: &mut F,
    input: I,
    out: O,
    mut err: E,
) -> (u8, I, O, E)
    requires room { HasRoom (2 ^ 48) 0 meter.old }
    requires in_failures { I.failure_count input < 2 ^ 64 - 1 }
    requires out_failures { O.failure_count out < 2 ^ 64 - 1 }
    requires err_failures { E.failure_count err < 2 ^ 64 - 1 }
    requires checked { AreChecked job.limits }
    requires tables_room { HasRoom (2 ^ 48) 0 tables.old }
    ensures served { IsOpenLoaded F.closes F.File.remaining E.Output job.limits []
        (λ closed shared. IsJobServed F.gives F.closes F.File.remaining
        I.Input O.Output E.Output shared job.task job.limits (map string_bytes job.files.items)
        meter.old meter.new closed files.new
        input result.1 out result.2 err result.3 result.0)
        (Ok file) tables.old tables.new meter.old meter.new files.old files.new
        input result.1 out result.2 err result.3 result.0 }
    ensures status { (result.0 ≡ 0) ⊎ ((result.0 ≡ 1) ⊎ (result.0 ≡ 3)) }
{
    match load_file(tables, job.limits, files, file) {
        Ok(catalog) => {
            let served = serve_job(meter, &catalog, job, files, input, out, err);
            catalog.release(tables);
            served
        }
        Err(fault) => (report_catalog(fault, &mut err), input, out, err),
    }
}

/// Runs with the tables of the catalogue of this name, or says that it cannot be opened.
fn serve_named<F: FileSource, I: Input, O: Output, E: Output>(
    meter: &mut Meter<Global>,
    tables: &mut Meter<Global>,
    name: &str,
    job: Job,
    files: &mut F,
    input: I,
    out: O,
    mut err: E,
) -> (u8, I, O, E)
    requires room { HasRoom (2 ^ 48) 0 meter.old }
    requires in_failures { I.failure_count input < 2 ^ 64 - 1 }
    requires out_failures { O.failure_count out < 2 ^ 64 - 1 }
    requires err_failures { E.failure_count err < 2 ^ 64 - 1 }
    requires checked { AreChecked job.limits }
    requires tables_room { HasRoom (2 ^ 48) 0 tables.old }
    ensures served { IsCatalogServed F.gives F.closes F.File.remaining I.Input O.Output E.Output
        job.task job.limits name.now (map string_bytes job.files.items)
        tables.old tables.new meter.old meter.new files.old files.new
        input result.1 out result.2 err result.3 result.0 }
    ensures status { (result.0 ≡ 0) ⊎ ((result.0 ≡ 1) ⊎ (result.0 ≡ 3)) }
{
    match files.open_named(name) {
        Ok(file) => serve_loaded(meter, tables, file, job, files, input, out, err),
        Err(reason) => {
            say_unopened(name, reason.as_str(), &mut err);
            (3, input, out, err)
        }
    }
}

/// Runs with the tables of the catalogue that was named, or with none.
// In line its 6 KB of stack would be there while the words are read.
#[inline(never)]
fn serve_run<F: FileSource, I: Input, O: Output, E: Output>(
    meter: &mut Meter<Global>,
    tables: &mut Meter<Global>,
    catalog: Option<String>,
    job: Job,
    files: &mut F,
    input: I,
    out: O,
    err: E,
) -> (u8, I, O, E)
    requires room { HasRoom (2 ^ 48) 0 meter.old }
    requires in_failures { I.failure_count input < 2 ^ 64 - 1 }
    requires out_failures { O.failure_count out < 2 ^ 64 - 1 }
    requires err_failures { E.failure_count err < 2 ^ 64 - 1 }
    requires checked { AreChecked job.limits }
    requires tables_room { HasRoom (2 ^ 48) 0 tables.old }
    ensures plain { catalog ≡ None
        → (tables.new ≡ tables.old)
        × IsJobServed F.gives F.closes F.File.remaining I.Input O.Output E.Output
        [] job.task job.limits (map string_bytes job.files.items)
        meter.old meter.new files.old files.new
        input result.1 out result.2 err result.3 result.0 }
    ensures named { (name : List ℕ) → option_map string_bytes catalog ≡ Some name
        → IsCatalogServed F.gives F.closes F.File.remaining I.Input O.Output E.Output
        job.task job.limits name (map string_bytes job.files.items)
        tables.old tables.new meter.old meter.new files.old files.new
        input result.1 out result.2 err result.3 result.0 }
    ensures status { (result.0 ≡ 0) ⊎ ((result.0 ≡ 1) ⊎ (result.0 ≡ 3)) }
{
    let Some(name) = catalog else {
        let none = Catalog::new(meter);
        return serve_job(meter, &none, job, files, input, out, err);
    };
    serve_named(meter, tables, name.as_str(), job, files, input, out, err)
}

/// Runs the program: does what the words after its name ask for, over these devices.
///
/// The devices are handed back beside the status. All that a run holds is counted by `meter`, and
/// what a catalogue holds by `tables`; the words are read beside them.
pub fn serve<F: FileSource, I: Input + Drop, O: Output + Drop, E: Output + Drop>(
    alloc: Global,
    meter: &mut Meter<Global>,
    tables: &mut Meter<Global>,
    words: Vec<String>,
    files: &mut F,
    input: I,
    mut out: O,
    mut err: E,
) -> (u8, I, O, E)
    requires held { meter.old.held ≤ 2 ^ 48 }
    requires countable { meter.old.refused < 2 ^ 64 - 1 }
    requires tables_room { HasRoom (2 ^ 48) 0 tables.old }
    requires in_failures { I.failure_count input < 2 ^ 64 - 1 }
    requires out_failures { O.failure_count out < 2 ^ 64 - 1 }
    requires err_failures { E.failure_count err < 2 ^ 64 - 1 }

    // Words that ask for runs without a catalogue. Where they name no file it is one run over the
    // input, and the source of files is left as it was; where they name one it is a run over what
    // that opens to, which is handed back as the run leaves it, and the input is not read; where
    // they name several, such a run for each in turn, with its word before its lines, and what is
    // written is what the runs alone write, one after another. The status, both outputs, the
    // failures and the memory of a run are those of some answer. Or the words could not be read.
    ensures ran { (task : Task) (limits : Limits) (names : List (List ℕ))
        → IsRun (map string_bytes words.items) task limits None names
        → IsJobServed F.gives F.closes F.File.remaining I.Input O.Output E.Output []
        task limits names meter.old meter.new files.old files.new
        input result.1 out result.2 err result.3 result.0
        ⊎ IsUnread E.Output (map string_bytes words.items) meter.old meter.new files.old files.new
        input result.1 out result.2 err result.3 result.0 }

    // Words that name a catalogue: by what its name opens to, the runs are served with its tables,
    // over the input or over the files that are named too, or a line says why there are none, and
    // nothing else is done. The catalogue's file is handed back before. Its meter, which nothing
    // else moves, has counted a refusal where memory is blamed, and holds in the end what it held.
    ensures uncatalogued { (task : Task) (limits : Limits) (names : List (List ℕ))
        → IsRun (map string_bytes words.items) task limits None names
        → tables.new ≡ tables.old }
    ensures catalog { (task : Task) (limits : Limits) (name : List ℕ) (names : List (List ℕ))
        → IsRun (map string_bytes words.items) task limits (Some name) names
        → IsCatalogServed F.gives F.closes F.File.remaining I.Input O.Output E.Output
        task limits name names tables.old tables.new meter.old meter.new files.old files.new
        input result.1 out result.2 err result.3 result.0
        ⊎ ((tables.new ≡ tables.old)
        × IsUnread E.Output (map string_bytes words.items) meter.old meter.new files.old files.new
        input result.1 out result.2 err result.3 result.0) }

    // Other words: help on standard output, or on standard error why there is nothing to do, or
    // that the words could not be read.
    ensures unread { ¬ AsksRun (map string_bytes words.items)
        → (result.1 ≡ input) × (files.new ≡ files.old)
        × (meter.new ≡ meter.old) × (tables.new ≡ tables.old) }
    ensures other { ¬ AsksRun (map string_bytes words.items)
        → IsHelped O.Output E.Output (map string_bytes words.items)
        out result.2 err result.3 result.0
        ⊎ (IsUsageError E.Output (map string_bytes words.items) out result.2 err result.3 result.0
        ⊎ IsUnread E.Output (map string_bytes words.items) meter.old meter.new files.old files.new
        input result.1 out result.2 err result.3 result.0) }
    ensures usage { result.0 ≡ 2 → (¬ AsksRun (map string_bytes words.items))
        × IsUsageError E.Output (map string_bytes words.items) out result.2 err result.3 result.0 }
{
    let status = match read_words(alloc, words.as_slice()) {
        Ok(Request::Run(catalog, job)) => {
            return serve_run(meter, tables, catalog, job, files, input, out, err);
        }
        Ok(Request::Help(text)) => give_help(text.as_bytes(), &mut out, &mut err),
        Ok(Request::Usage(text)) => give_usage(text.as_bytes(), &mut err),
        Err(AllocError) => report(Err(Fault::Memory), &mut err),
    };
    (status, input, out, err)
}
