// What no clause says: that the calls succeed with ample memory, and that the adapters reach the outside.
ghost use Rattle.std.specs.Prelude.{◌≤◌, IfOk};

use crate::checks::{same, vector};
use crate::equal::must;
use crate::rack::{counter, script};
use mix_io::{
    Device, Failed, FetchError, FileKeep, FileShelf, Keeper, MemKeep, MemShelf, MemSink, MemSource,
    Shelf, Sink, Source, StdSink, StdSource, Tape, have_distinct_names,
};
use std::alloc::Global;
use std::io::{self, Read, Write};
use std::process::Abort;
use std::rt::Files;
use std::{fs, process};

/// A device is asked the same word again and again, and answers so.
fn check_device(rt: &impl Abort, mut device: Box<dyn Device>, answers: &[Result<u32, Failed>]) {
    for answer in answers {
        same(rt, device.ask(0xffff_fffd), *answer);
    }
}

/// A tape that holds no word yet.
fn tape(rt: &impl Abort, alloc: Global) -> Box<Tape> {
    let tape = Tape::new(alloc).expect(rt, "no tape");
    Box::new(alloc, tape).expect(rt, "no device")
}

#[test]
fn devices_answer(rt: HostRuntime) {
    let alloc = rt.alloc();
    let answers = [Ok(9), Err(Failed), Err(Failed)];
    check_device(&rt, script(&rt, alloc, &[Some(9), None]), &answers);
    let totals = [Ok(0xffff_fffd), Ok(0xffff_fffa), Ok(0xffff_fff7)];
    check_device(&rt, counter(&rt, alloc), &totals);
    let held = [Ok(0), Ok(1), Ok(2)];
    check_device(&rt, tape(&rt, alloc), &held);
}

#[test]
fn a_tape_is_full_at_its_1025th_ask(rt: HostRuntime) {
    fill_tape(&rt, &mut *tape(&rt, rt.alloc()));
}

/// A tape is asked as often as it has room for, and once more.
fn fill_tape(rt: &impl Abort, tape: &mut Tape) {
    for held in 0..1024 {
        same(rt, tape.ask(7), Ok(held));
    }
    same(rt, tape.ask(7), Err(Failed));
}

/// What a take gives.
type Taken = Result<Option<u8>, Failed>;

/// Takes give these, one after another.
fn check_takes<S: Source>(rt: &impl Abort, source: &mut S, takes: &[Taken]) {
    for taken in takes {
        same(rt, source.take(), *taken);
    }
}

const SOURCE_TAKES: [Taken; 4] = [Ok(Some(b'h')), Err(Failed), Ok(Some(b'i')), Ok(None)];

#[test]
fn a_source_in_memory(rt: HostRuntime) {
    let alloc = rt.alloc();
    let fails = vector(&rt, alloc, &[2]);
    let mut source = MemSource::new(vector(&rt, alloc, b"hi"), fails);
    check_takes(&rt, &mut source, &SOURCE_TAKES);
}

/// The answer to a put, and what the sink then holds.
type Put = (Result<(), Failed>, &'static [u8]);

/// A piece is put again and again.
fn check_puts(rt: &impl Abort, sink: &mut MemSink, puts: &[Put]) {
    for (put, held) in puts {
        same(rt, sink.put(b"abc"), *put);
        same(rt, sink.held(), *held);
    }
}

/// A sink of six bytes that fails at its second call.
fn sink(rt: &impl Abort, alloc: Global) -> MemSink {
    let fails = vector(rt, alloc, &[2]);
    MemSink::new(alloc, 6, fails).expect(rt, "no sink")
}

const PUTS: [Put; 4] = [
    (Ok(()), b"abc"),
    (Err(Failed), b"abc"),
    (Ok(()), b"abcabc"),
    (Err(Failed), b"abcabc"),
];

#[test]
fn a_sink_in_memory(rt: HostRuntime) {
    check_puts(&rt, &mut sink(&rt, rt.alloc()), &PUTS);
}

fn string(rt: &impl Abort, alloc: Global, text: &str) -> String {
    String::from_str(alloc, text).expect(rt, "no string")
}

/// A shelf that holds two files, `F` with one byte and `G` with four, and fails at its fourth call.
fn shelf(rt: &impl Abort, alloc: Global) -> MemShelf {
    let (names, contents) = (names(rt, alloc), contents(rt, alloc));
    must(rt, names.len() == contents.len());
    must(rt, have_distinct_names(&names));
    MemShelf::new(names, contents, vector(rt, alloc, &[4]))
}

fn names(rt: &impl Abort, alloc: Global) -> Vec<String> {
    let first = string(rt, alloc, "F");
    let second = string(rt, alloc, "G");
    vec![in alloc; first, second].expect(rt, "no names")
}

fn contents(rt: &impl Abort, alloc: Global) -> Vec<Vec<u8>> {
    let first = vector(rt, alloc, b"H");
    let second = vector(rt, alloc, b"long");
    vec![in alloc; first, second].expect(rt, "no files")
}

/// The bytes of a file that is fetched, or why it is not.
type Fetched<'a> = Result<&'a [u8], FetchError>;

/// A fetch of at most so many bytes gives this.
fn check_fetch<S: Shelf>(
    rt: &impl Abort,
    alloc: Global,
    shelf: &mut S,
    name: &str,
    limit: u32,
    wanted: Fetched,
) {
    let fetched = shelf.fetch(alloc, name, limit);
    let found = match &fetched {
        Ok(file) => Ok(file.as_slice()),
        Err(error) => Err(*error),
    };
    same(rt, found, wanted);
}

/// A name, how many bytes a fetch may give, and what it gives.
type Fetch<'a> = (&'a str, u32, Fetched<'a>);

fn check_fetches<S: Shelf>(rt: &impl Abort, alloc: Global, shelf: &mut S, fetches: &[Fetch]) {
    for (name, limit, wanted) in fetches {
        check_fetch(rt, alloc, shelf, name, *limit, *wanted);
    }
}

const FETCHES: [Fetch<'static>; 5] = [
    ("F", 3, Ok(b"H")),
    ("G", 3, Err(FetchError::TooLong(3))),
    ("E", 3, Err(FetchError::Failed)),
    ("F", 3, Err(FetchError::Failed)),
    ("G", 4, Ok(b"long")),
];

#[test]
fn a_shelf_in_memory(rt: HostRuntime) {
    let mut shelf = shelf(&rt, rt.alloc());
    check_fetches(&rt, rt.alloc(), &mut shelf, &FETCHES);
}

/// The path of a file of the process with this number.
fn temporary(rt: &impl Abort, alloc: Global, id: u32, name: &str) -> String {
    format!(in alloc; "/tmp/mix_io-{name}{id}").expect(rt, "no path")
}

/// Writes a file of the system.
fn write<R: Abort + Files>(rt: &R, path: &str, file: &[u8]) {
    fs::write(rt, path, file).expect(rt, "no file is written");
}

/// Removes a file of the system.
fn remove<R: Abort + Files>(rt: &R, path: &str) {
    fs::remove_file(rt, path).expect(rt, "no file is removed");
}

/// A file is fetched before it is there, whole, with a byte too many, and when it is gone again.
fn check_file<R: Abort + Files + AllocGlobal, S: Shelf>(
    rt: &R,
    shelf: &mut S,
    path: &str,
    file: &[u8],
) {
    must(rt, 0 < file.len() && file.len() <= 10_000);
    let size = file.len() as u32;
    let missing = Err(FetchError::Failed);
    check_fetch(rt, rt.alloc(), shelf, path, size, missing);
    write(rt, path, file);
    check_fetch(rt, rt.alloc(), shelf, path, size, Ok(file));
    let too_long = Err(FetchError::TooLong(size - 1));
    check_fetch(rt, rt.alloc(), shelf, path, size - 1, too_long);
    remove(rt, path);
    check_fetch(rt, rt.alloc(), shelf, path, size, missing);
}

#[test]
fn files_of_the_system_in_one_chunk_and_in_several(rt: HostRuntime) {
    let id = process::id(rt.process());
    let path = temporary(&rt, rt.alloc(), id, "");
    fetch_files(&rt, path.as_str());
}

#[test]
fn a_folder_opens_and_cannot_be_read(rt: HostRuntime) {
    let mut shelf = FileShelf::new(&rt);
    let failed = Err(FetchError::Failed);
    check_fetch(&rt, rt.alloc(), &mut shelf, "/", 4096, failed);
}

/// A file of one read; and files that take several, of which the last is full or not.
fn fetch_files<R: Abort + Files + AllocGlobal>(rt: &R, path: &str) {
    let mut shelf = FileShelf::new(rt);
    check_file(rt, &mut shelf, path, b"hello");
    check_size(rt, &mut shelf, path, 8192);
    check_size(rt, &mut shelf, path, 10_000);
}

/// A file of so many bytes.
fn check_size<R: Abort + Files + AllocGlobal, S: Shelf>(
    rt: &R,
    shelf: &mut S,
    path: &str,
    size: u32,
) {
    let file = every_byte(rt, rt.alloc(), size);
    check_file(rt, shelf, path, &file);
}

/// So many bytes, which go through all values again and again.
fn every_byte(rt: &impl Abort, alloc: Global, size: u32) -> Vec<u8> {
    let bytes = (0..size).map(|at| (at % 256) as u8).collect(alloc);
    bytes.expect(rt, "no bytes")
}

/// A name to keep four bytes by, the answer, and what is kept then.
type Keep = (&'static str, Result<(), Failed>, &'static [u8]);

fn check_keeps(rt: &impl Abort, keeper: &mut MemKeep, keeps: &[Keep]) {
    for (name, answer, kept) in keeps {
        same(rt, keeper.keep(name, b"abcd"), *answer);
        same(rt, keeper.kept(), *kept);
    }
}

/// A keeper of six bytes by the name `s`, which fails at its second call.
fn keeper(rt: &impl Abort, alloc: Global) -> MemKeep {
    let fails = vector(rt, alloc, &[2]);
    let name = string(rt, alloc, "s");
    MemKeep::new(alloc, name, 6, fails).expect(rt, "no keeper")
}

const KEEPS: [Keep; 4] = [
    ("s", Ok(()), b"abcd"),
    ("s", Err(Failed), b"abcd"),
    ("t", Err(Failed), b"abcd"),
    ("s", Err(Failed), b"abcdab"),
];

#[test]
fn a_keeper_in_memory(rt: HostRuntime) {
    check_keeps(&rt, &mut keeper(&rt, rt.alloc()), &KEEPS);
}

/// A piece is kept, and the file then holds this.
fn check_piece<R: Abort + Files + AllocGlobal, K: Keeper>(
    rt: &R,
    keeper: &mut K,
    path: &str,
    piece: &str,
    held: &str,
) {
    same(rt, keeper.keep(path, piece.as_bytes()), Ok(()));
    let text = fs::read_to_string(rt, path).expect(rt, "no text");
    same(rt, text.as_str(), held);
}

#[test]
fn files_of_the_system_are_kept_or_cannot_be(rt: HostRuntime) {
    let id = process::id(rt.process());
    let path = temporary(&rt, rt.alloc(), id, "kept-");
    let folder = temporary(&rt, rt.alloc(), id, "folder-");
    keep_files(&rt, path.as_str(), folder.as_str());
}

/// Each by a keeper of its own: a file that is kept piece after piece, one in a folder that is not there, and then
/// is, and one that takes no byte.
fn keep_files<R: Abort + Files + AllocGlobal>(rt: &R, path: &str, folder: &str) {
    keep_pieces(rt, &mut FileKeep::new(rt), path);
    keep_in_folder(rt, &mut FileKeep::new(rt), folder);
    keep_nothing(rt, &mut FileKeep::new(rt));
}

fn keep_pieces<R: Abort + Files + AllocGlobal, K: Keeper>(rt: &R, keeper: &mut K, path: &str) {
    write(rt, path, b"what was there before, and is longer");
    check_piece(rt, keeper, path, "front ", "front ");
    check_piece(rt, keeper, path, "", "front ");
    check_piece(rt, keeper, path, "and back", "front and back");
    remove(rt, path);
}

/// A file in a folder that is not there, and then is.
fn keep_in_folder<R: Abort + Files + AllocGlobal, K: Keeper>(rt: &R, keeper: &mut K, folder: &str) {
    let path = format!(in rt.alloc(); "{folder}/kept").expect(rt, "no path");
    keep_within(rt, keeper, folder, path.as_str());
}

fn keep_within<R: Abort + Files + AllocGlobal, K: Keeper>(
    rt: &R,
    keeper: &mut K,
    folder: &str,
    path: &str,
) {
    same(rt, keeper.keep(path, b"piece"), Err(Failed));
    fs::create_dir(rt, folder).expect(rt, "no folder is made");
    check_piece(rt, keeper, path, "piece", "piece");
    remove(rt, path);
    fs::remove_dir(rt, folder).expect(rt, "no folder is removed");
}

/// A device that takes no byte: its file opens, and each write to it fails.
fn keep_nothing<K: Keeper>(rt: &impl Abort, keeper: &mut K) {
    same(rt, keeper.keep("/dev/full", b"piece"), Err(Failed));
    same(rt, keeper.keep("/dev/full", b"piece"), Err(Failed));
}

#[test]
fn standard_input_at_its_end(rt: HostRuntime) {
    let mut input = StdSource::new(rt.stdin());
    same(&rt, input.take(), Ok(None));
}

/// Gives or takes two bytes at a time, and breaks when `left` calls were made.
#[derive(Drop)]
struct Breaking {
    left: u32,
}

impl Breaking {
    fn call(&mut self, room: usize) -> io::Result<usize>
        ensures { IfOk result (λ n. n ≤ room) }
    {
        if self.left == 0 {
            return Err(io::Error::from(io::ErrorKind::BrokenPipe));
        }
        self.left -= 1;
        Ok(room.min(2))
    }
}

impl Read for Breaking {
    fn read(&mut self, buf: &mut [u8]) -> io::Result<usize> {
        self.call(buf.len())
    }
}

impl Write for Breaking {
    fn write(&mut self, buf: &[u8]) -> io::Result<usize> {
        self.call(buf.len())
    }

    fn flush(&mut self) -> io::Result<()> {
        Ok(())
    }
}

/// Gives a byte at every second read, and none between, as a terminal may.
#[derive(Drop)]
struct Stuttering {
    gives: bool,
}

impl Read for Stuttering {
    fn read(&mut self, buf: &mut [u8]) -> io::Result<usize> {
        self.gives = !self.gives;
        Ok(if self.gives { buf.len().min(1) } else { 0 })
    }
}

#[test]
fn no_byte_comes_after_the_end(rt: HostRuntime) {
    let mut source = StdSource::new(Stuttering { gives: false });
    let takes = [Ok(Some(0)), Ok(None), Ok(None), Ok(None)];
    check_takes(&rt, &mut source, &takes);
}

#[test]
fn a_stream_that_breaks(rt: HostRuntime) {
    let mut source = StdSource::new(Breaking { left: 1 });
    check_takes(&rt, &mut source, &[Ok(Some(0)), Err(Failed)]);
    let mut sink = StdSink::new(Breaking { left: 3 });
    put_twice(&rt, &mut sink, b"four", [Ok(()), Err(Failed)]);
}

/// A piece is put twice, and these are the answers.
fn put_twice<S: Sink>(
    rt: &impl Abort,
    sink: &mut S,
    piece: &[u8],
    answers: [Result<(), Failed>; 2],
) {
    same(rt, sink.put(piece), answers[0]);
    same(rt, sink.put(piece), answers[1]);
}

/// Passes at most seven bytes at a time, and breaks at its third call alone.
#[derive(Drop)]
struct Limping<S: Drop> {
    stream: S,
    calls: u32,
}

impl<S: Drop> Limping<S> {
    fn over(stream: S) -> Limping<S> {
        Limping { stream, calls: 0 }
    }

    /// How many bytes this call may pass, of which there are so many.
    fn call(&mut self, room: usize) -> io::Result<usize>
        ensures { IfOk result (λ n. n ≤ room) }
    {
        self.calls = self.calls.wrapping_add(1);
        if self.calls == 3 {
            return Err(io::Error::from(io::ErrorKind::BrokenPipe));
        }
        Ok(room.min(7))
    }
}

impl<R: Read + Drop> Read for Limping<R> {
    fn read(&mut self, buf: &mut [u8]) -> io::Result<usize> {
        let most = self.call(buf.len())?;
        self.stream.read(&mut buf[..most])
    }
}

impl<W: Write + Drop> Write for Limping<W> {
    fn write(&mut self, buf: &[u8]) -> io::Result<usize> {
        let most = self.call(buf.len())?;
        self.stream.write(&buf[..most])
    }

    fn flush(&mut self) -> io::Result<()> {
        self.stream.flush()
    }
}

#[test]
fn each_byte_comes_in_after_a_failure(rt: HostRuntime) {
    let bytes = every_byte(&rt, rt.alloc(), 512);
    let mut source = StdSource::new(Limping::over(bytes.as_slice()));
    check_bytes(&rt, &mut source, &bytes);
}

/// These bytes come in, with a failure before the third.
fn check_bytes<S: Source>(rt: &impl Abort, source: &mut S, bytes: &[u8]) {
    for (at, byte) in bytes.iter().enumerate() {
        if at == 2 {
            same(rt, source.take(), Err(Failed));
        }
        same(rt, source.take(), Ok(Some(*byte)));
    }
    same(rt, source.take(), Ok(None));
}

#[test]
fn a_long_piece_goes_out_after_a_failure(rt: HostRuntime) {
    let piece = every_byte(&rt, rt.alloc(), 10_000);
    let held = limp(&rt, rt.alloc(), &piece);
    check_held(&rt, &held, &piece);
}

/// What two calls passed of the first piece, and the second piece.
fn check_held(rt: &impl Abort, held: &[u8], piece: &[u8]) {
    let (front, rest) = held.split_at(14.min(held.len()));
    let passed = [0, 1, 2, 3, 4, 5, 6, 7, 8, 9, 10, 11, 12, 13];
    same(rt, front, passed.as_slice());
    same(rt, rest, piece);
}

/// What goes out where a piece is put, which fails at the third call, and is put again.
fn limp(rt: &impl Abort, alloc: Global, piece: &[u8]) -> Vec<u8> {
    let mut held = Vec::new(alloc);
    let mut sink = StdSink::new(Limping::over(&mut held));
    put_twice(rt, &mut sink, piece, [Err(Failed), Ok(())]);
    drop(sink);
    held
}
