//! Files read as texts, each by its grammar, and images as lines; and bytes and lines written as files.

ghost use Rattle.std.specs.Prelude.{◌≡◌, [], ◌∷◌, ◌≤◌, ◌*◌, length, map, string_bytes, IfOk, IfErr, OnOk, All};
ghost use Rattle.onll_model.specs.Limits.{most_updates};
ghost use Rattle.onll_outside.specs.Views.{Gives, SameFiles, SameOthers, BeginsWith, with_zeros, image_bytes};
ghost use Rattle.onll_outside.specs.LineFiles.{IsFileFront, GivesLines};
ghost use Rattle.onll_model.specs.Calls.{updates_in};
ghost use Rattle.onll_pmem.specs.Pmem.{words_of};
ghost use Rattle.onll_text.specs.Init.{init_of};
ghost use Rattle.onll_text.specs.Script.{script_of};
ghost use Rattle.onll_task.specs.Reading.{IsCutText, CannotRead};
ghost use Rattle.onll_task.specs.Stop.{StopSays};
ghost use Rattle.onll_task.specs.Writing.{HasWritten, CannotWrite, WriteStops};
ghost use Rattle.onll_open.specs.Files.{SameCounts};
ghost use Rattle.onll_text.specs.Schedule.{schedule_of, IsPlayable};
ghost use Rattle.onll_task.specs.Doing.{DoesStage, BeginsBy, text_stage, whole_stage, lines_stage, write_stage};
ghost use Rattle.onll_task.specs.Images.{Decides, KeepsOf};
ghost use Rattle.onll_task.specs.Scripts.{scripts_stage};
ghost use Rattle.onll_log.specs.ImageFile.{longest_image};

use crate::answer::Stop;
use onll_log::{LONGEST_IMAGE, TestedImage};
use onll_model::Call;
use onll_outside::{FileLines, OutsideFault, Store};
use onll_text::{
    AnyObject, LONGEST_TEXT, Schedule, TextFault, Texted, read_init, read_schedule, read_script,
};
use onll_words::Line;
use std::alloc::Global;
use std::borrow::CowSlice;

/// The first bytes of a file, `limit` at most. It stops where the file can't be read, and names it.
pub fn read_bytes<S: Store>(
    alloc: Global,
    name: &str,
    limit: u64,
    store: &mut S,
) -> Result<Vec<u8>, Stop>
    ensures bytes { IfOk result (λ bytes. Gives (S.seen store.old) name.now limit bytes.items) }
    ensures stop { IfErr result (λ stop. StopSays stop (CannotRead (S.seen store.old) (S.seen store.new) name.now)) }
    ensures same { SameFiles (S.seen store.old) (S.seen store.new) }
    ensures counts { OnOk result (SameCounts (S.seen store.old) (S.seen store.new)) }
{
    match store.read(alloc, name, limit) {
        Ok(bytes) => Ok(bytes),
        Err(OutsideFault::Failed) => Err(Stop::unread(alloc, name)),
        Err(OutsideFault::NoMemory) => Err(Stop::NoMemory),
    }
}

/// The whole lines of the first `limit` bytes of a file. It stops where the file can't be read, and names it.
pub fn read_lines<S: Store>(
    alloc: Global,
    name: &str,
    limit: u64,
    store: &mut S,
) -> Result<FileLines, Stop>
    ensures lines { IfOk result (λ l. GivesLines (S.seen store.old) name.now limit (words_of l.front.items) l.count) }
    ensures front { IfOk result (λ l. IsFileFront (words_of l.front.items) l.count) }
    ensures few { IfOk result (λ l. 64 * l.count ≤ limit) }
    ensures stop { IfErr result (λ stop. StopSays stop (CannotRead (S.seen store.old) (S.seen store.new) name.now)) }
    ensures same { SameFiles (S.seen store.old) (S.seen store.new) }
    ensures counts { OnOk result (SameCounts (S.seen store.old) (S.seen store.new)) }
{
    match store.read_lines(alloc, name, limit) {
        Ok(lines) => Ok(lines),
        Err(OutsideFault::Failed) => Err(Stop::unread(alloc, name)),
        Err(OutsideFault::NoMemory) => Err(Stop::NoMemory),
    }
}

/// The text of a file, with one byte at most that is too many, which its reader then refuses. It stops where the file can't be read.
fn read_text<S: Store>(alloc: Global, name: &str, store: &mut S) -> Result<Vec<u8>, Stop>
    ensures text { IfOk result (λ text. IsCutText (S.seen store.old) name.now text.items) }
    ensures stop { IfErr result (λ stop. StopSays stop (CannotRead (S.seen store.old) (S.seen store.new) name.now)) }
    ensures same { SameFiles (S.seen store.old) (S.seen store.new) }
    ensures counts { OnOk result (SameCounts (S.seen store.old) (S.seen store.new)) }
{
    read_bytes(alloc, name, LONGEST_TEXT as u64 + 1, store)
}

/// An initial state, with the text that says it.
#[derive(Drop)]
pub struct InitText {
    pub text: Vec<u8>,
    pub object: AnyObject,
}

/// The object that a file holds as an initial state, and the file's bytes. It stops where the file can't be read, and with the line and
/// the reason where its text is refused.
pub fn init_file<S: Store>(alloc: Global, name: &str, store: &mut S) -> Result<InitText, Stop>
    ensures { let stage = whole_stage name.now init_of in
        DoesStage [] (S.seen store.old) (S.seen store.new) stage (λ read. (read.text.items, read.object)) result }
{
    let text = match read_text(alloc, name, store) {
        Ok(text) => text,
        Err(stop) => return Err(stop),
    };
    match read_init(alloc, &text) {
        Ok(object) => Ok(InitText { text, object }),
        Err(TextFault::Refused { line, reason }) => Err(Stop::refused(alloc, name, line, reason)),
        Err(TextFault::NoMemory) => Err(Stop::NoMemory),
    }
}

/// The calls that a file holds as a script. It stops where the file can't be read, and with the line and the reason where its text is
/// refused.
pub fn script_file<O: Texted, S: Store>(
    alloc: Global,
    name: &str,
    store: &mut S,
) -> Result<Vec<Call<O>>, Stop>
    ensures begins { let stage = text_stage name.now (script_of O.wording) in
        DoesStage [] (S.seen store.old) (S.seen store.new) stage (λ calls. calls.items) result }
    ensures updates { IfOk result (λ calls. updates_in calls.items ≤ most_updates) }
{
    let text = match read_text(alloc, name, store) {
        Ok(text) => text,
        Err(stop) => return Err(stop),
    };
    match read_script(alloc, &text) {
        Ok(calls) => Ok(calls),
        Err(TextFault::Refused { line, reason }) => Err(Stop::refused(alloc, name, line, reason)),
        Err(TextFault::NoMemory) => Err(Stop::NoMemory),
    }
}

/// The calls of each script, in their order. It stops at the first file that can't be read, or whose text is refused.
pub fn script_files<O: Texted, S: Store>(
    alloc: Global,
    names: &[String],
    store: &mut S,
) -> Result<Vec<Vec<Call<O>>>, Stop>
    ensures begins { let stage = scripts_stage O.wording (map string_bytes names.now) in
        DoesStage [] (S.seen store.old) (S.seen store.new) stage (λ scripts. map (λ script. script.items) scripts.items) result }
    ensures count { IfOk result (λ scripts. length scripts.items ≡ length names.now) }
    ensures updates { IfOk result (λ scripts. All (λ script. updates_in script.items ≤ most_updates) scripts.items) }
{
    let mut scripts = Vec::new(alloc);
    for name in names {
        match script_file::<O, S>(alloc, name, store) {
            Ok(script) => scripts.push(script)?,
            Err(stop) => return Err(stop),
        }
    }
    Ok(scripts)
}

/// What is kept of an image that was read.
#[derive(Drop)]
pub struct KeptImage {
    /// The lines that decide what it holds as a log.
    pub image: TestedImage<'static>,
    /// How many lines it has.
    pub count: u64,
}

/// What is kept of what a file holds as the image of a log, with which the file begins. Whether that is a log is not asked: it stops only
/// where the file can't be read.
pub fn kept_image<S: Store>(alloc: Global, name: &str, store: &mut S) -> Result<KeptImage, Stop>
    ensures begins { let stage = lines_stage name.now in
        BeginsBy [] (S.seen store.old) (S.seen store.new) stage (λ kept image. KeepsOf kept.image kept.count image) result }
    ensures front { IfOk result (λ kept. BeginsWith (S.seen store.new) name.now (image_bytes kept.image)) }
    ensures few { IfOk result (λ kept. 64 * kept.count ≤ longest_image) }
{
    let read = match read_lines(alloc, name, LONGEST_IMAGE as u64, store) {
        Ok(read) => read,
        Err(stop) => return Err(stop),
    };
    let FileLines { front, count } = read;
    let image = TestedImage::of_lines(CowSlice::Owned(front));
    Ok(KeptImage { image, count })
}

/// The lines that decide what a file holds as the image of a log. Whether they are one is not asked: it stops only where the file can't
/// be read.
pub fn image_file<S: Store>(
    alloc: Global,
    name: &str,
    store: &mut S,
) -> Result<TestedImage<'static>, Stop>
    ensures { let stage = lines_stage name.now in
        BeginsBy [] (S.seen store.old) (S.seen store.new) stage (λ lines image. Decides lines image) result }
{
    match kept_image(alloc, name, store) {
        Ok(KeptImage { image, .. }) => Ok(image),
        Err(stop) => Err(stop),
    }
}

/// The schedule that a file holds for so many threads. It stops where the file can't be read, and with the line and the reason where its
/// text is refused.
pub fn schedule_file<S: Store>(
    alloc: Global,
    name: &str,
    threads: u64,
    store: &mut S,
) -> Result<Schedule, Stop>
    ensures begins { let stage = text_stage name.now (schedule_of threads) in
        DoesStage [] (S.seen store.old) (S.seen store.new) stage (λ schedule. schedule) result }
    ensures playable { IfOk result (λ schedule. IsPlayable threads schedule) }
{
    let text = match read_text(alloc, name, store) {
        Ok(text) => text,
        Err(stop) => return Err(stop),
    };
    match read_schedule(alloc, &text, threads) {
        Ok(schedule) => Ok(schedule),
        Err(TextFault::Refused { line, reason }) => Err(Stop::refused(alloc, name, line, reason)),
        Err(TextFault::NoMemory) => Err(Stop::NoMemory),
    }
}

/// Makes these bytes the file of a name. It stops where that can't be written, and names it.
pub fn write_bytes<S: Store>(
    alloc: Global,
    name: &str,
    bytes: &[u8],
    store: &mut S,
) -> Result<(), Stop>
    ensures { let stage = write_stage name.now bytes.now in
        DoesStage (name.now ∷ []) (S.seen store.old) (S.seen store.new) stage (λ done. done) result }
{
    match store.write(alloc, name, bytes) {
        Ok(()) => Ok(()),
        Err(OutsideFault::Failed) => Err(Stop::unwritten(alloc, name)),
        Err(OutsideFault::NoMemory) => Err(Stop::NoMemory),
    }
}

/// Makes these lines, and then lines of zeros, `count` in all, the file of a name. It stops where that can't be written, and names it.
pub fn write_lines<S: Store>(
    alloc: Global,
    name: &str,
    front: &[Line],
    count: u64,
    store: &mut S,
) -> Result<(), Stop>
    requires { length front.now ≤ count }
    ensures written { OnOk result (HasWritten (S.seen store.old) (S.seen store.new) name.now
        (image_bytes (with_zeros (words_of front.now) count))) }
    ensures stop { IfErr result (λ stop. StopSays stop (CannotWrite (S.seen store.old) (S.seen store.new) name.now)) }
    ensures cut { IfErr result (λ stop. WriteStops (S.seen store.old) (S.seen store.new) name.now) }
    ensures others { SameOthers name.now (S.seen store.old) (S.seen store.new) }
{
    match store.write_lines(alloc, name, front, count) {
        Ok(()) => Ok(()),
        Err(OutsideFault::Failed) => Err(Stop::unwritten(alloc, name)),
        Err(OutsideFault::NoMemory) => Err(Stop::NoMemory),
    }
}
