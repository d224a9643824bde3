//! A connection's two directions, told frame by frame as their bytes come.

ghost use Rattle.std.specs.Prelude.{◌≡◌, ◌≢◌, ◌+◌, ◌++◌, None, Err, length, IfErr, IfOk, OnOk, string_bytes};
ghost use Rattle.script_words.specs.Pieces.{words_of};
ghost use Rattle.script_stream.specs.Frames.{frame_line};
ghost use Rattle.script_stream.specs.Lines.{Does, TakesLine, left_of, rules, said};
ghost use Rattle.script_stream.specs.inner.Lines.{says_of};
ghost use Rattle.script_stream.specs.Streams.{Hears, Position, TellsAll, asked_after, fault_line, first_course, first_position};
ghost use Rattle.script_stream.specs.inner.Streams.{course_of};
ghost use Rattle.script_stream.specs.Streams.{left_line, telling};
ghost use Rattle.script_stream.specs.inner.Streams.{position_of};

use crate::asked::note;
use crate::fields::{push_length, push_value};
use crate::frame::{push_frame, push_place};
use crate::line::{CaptureLine, parse_line};
use crate::way::Way;
use script_words::pieces::words_of;
use script_words::script::LineReader;
use script_words::script_fault::ScriptFault;
use script_words::stop::LineStop;
use std::alloc::{AllocError, Allocator};
use zk_frames::{FrameFault, FrameReader};
use zk_limits::LONGEST_INCOMING;
use zk_records::RequestHeader;

/// What came in one direction: how many bytes, and how many of them were whole frames.
#[derive(Drop)]
pub struct Flow<A: Allocator> {
    pub reader: FrameReader<A>,
    pub came: usize,
    pub place: usize,
}

/// Both directions of a connection, and the requests so far.
#[derive(Drop)]
pub struct CaptureStream<A: Allocator> {
    pub client: Flow<A>,
    pub server: Flow<A>,
    pub asked: Vec<RequestHeader, A>,
}

/// This many bytes further. Past 2^64 bytes memory has run out long since.
fn further(place: usize, count: usize) -> Result<usize, AllocError>
    ensures { IfOk result (λ next. next ≡ place + count) }
{
    place.checked_add(count).ok_or(AllocError)
}

/// Notes a frame that is a request.
fn note_frame<A: Allocator + Copy>(
    alloc: A,
    way: Way,
    place: usize,
    asked: &mut Vec<RequestHeader, A>,
    payload: &[u8],
) -> Result<(), AllocError>
    ensures { OnOk result (asked.new.items ≡ asked_after way place asked.old.items payload.now) }
{
    match (way, place) {
        (Way::Client, 0) | (Way::Server, _) => Ok(()),
        (Way::Client, _) => note(alloc, asked, payload),
    }
}

/// Adds the line of a frame, notes it, and gives the place after it.
fn tell_frame<A: Allocator + Copy>(
    text: &mut String<A>,
    alloc: A,
    way: Way,
    place: usize,
    asked: &mut Vec<RequestHeader, A>,
    payload: &[u8],
) -> Result<usize, AllocError>
    ensures line { OnOk result (string_bytes text.new ≡ string_bytes text.old ++ frame_line way place asked.old.items payload.now) }
    ensures asked { OnOk result (asked.new.items ≡ asked_after way place asked.old.items payload.now) }
    ensures place { IfOk result (λ next. next ≡ place + (4 + length payload.now)) }
{
    push_frame(text, alloc, way, place, asked.as_slice(), payload)?;
    note_frame(alloc, way, place, asked, payload)?;
    further(place, 4 + payload.len())
}

/// Adds the line of a length that is none.
fn push_bad_length<A: Allocator + Copy>(
    text: &mut String<A>,
    alloc: A,
    way: Way,
    place: usize,
    fault: FrameFault,
) -> Result<(), AllocError>
    ensures { OnOk result (string_bytes text.new ≡ string_bytes text.old ++ fault_line way place fault) }
{
    push_place(text, alloc, way, place)?;
    push_value(text, alloc, "fault", &fault)?;
    text.push_str("\n")
}

/// Adds the lines of the whole frames that a reader holds, from a place on, and gives the place after them.
fn tell_frames<A: Allocator + Copy>(
    text: &mut String<A>,
    alloc: A,
    way: Way,
    reader: &mut FrameReader<A>,
    from: usize,
    asked: &mut Vec<RequestHeader, A>,
) -> Result<usize, AllocError>
    requires { reader.old.fault ≡ None }
    ensures { IfOk result (λ next. TellsAll way reader.old.bytes (telling from asked.old.items (string_bytes text.old)) reader.new.bytes
        reader.new.fault (telling next asked.new.items (string_bytes text.new))) }
{
    let mut place = from;
    'frames: loop {
        match reader.next_frame(LONGEST_INCOMING) {
            Ok(Some(payload)) => place = tell_frame(text, alloc, way, place, asked, payload)?,
            Ok(None) => return Ok(place),
            Err(fault) => {
                push_bad_length(text, alloc, way, place, fault)?;
                return Ok(place);
            }
        }
    }
}

/// Takes bytes of a direction, and gives the lines of the frames that are whole with them.
fn read_bytes<A: Allocator + Copy>(
    alloc: A,
    way: Way,
    flow: &mut Flow<A>,
    asked: &mut Vec<RequestHeader, A>,
    piece: &[u8],
) -> Result<String<A>, AllocError>
    ensures { IfOk result
        (λ text. Hears way piece.now (course_of flow.old) asked.old.items (course_of flow.new) asked.new.items (string_bytes text)) }
{
    let mut text = String::new(alloc);
    flow.came = further(flow.came, piece.len())?;
    match flow.reader.feed(piece) {
        Ok(()) => {
            flow.place = tell_frames(&mut text, alloc, way, &mut flow.reader, flow.place, asked)?;
            Ok(text)
        }
        Err(FrameFault::Memory) => Err(AllocError),
        Err(_) => Ok(text),
    }
}

/// Adds how many bytes of a direction are no whole frame.
fn push_left<A: Allocator + Copy>(
    text: &mut String<A>,
    alloc: A,
    way: Way,
    place: usize,
    came: usize,
) -> Result<(), AllocError>
    ensures { OnOk result (string_bytes text.new ≡ string_bytes text.old ++ left_line way place came) }
{
    if place >= came {
        return Ok(());
    }
    push_place(text, alloc, way, place)?;
    push_length(text, alloc, "left", came - place)?;
    text.push_str("\n")
}

impl<A: Allocator + Copy> Flow<A> {
    fn new(alloc: A) -> Flow<A>
        ensures { course_of result ≡ first_course }
    {
        Flow {
            reader: FrameReader::new(alloc),
            came: 0,
            place: 0,
        }
    }
}

impl<A: Allocator + Copy> CaptureStream<A> {
    /// Nothing has come yet.
    pub fn new(alloc: A) -> CaptureStream<A>
        ensures { position_of result ≡ first_position }
    {
        CaptureStream {
            client: Flow::new(alloc),
            server: Flow::new(alloc),
            asked: Vec::new(alloc),
        }
    }

    /// What is told where nothing comes any more.
    fn left(&self, alloc: A) -> Result<String<A>, AllocError>
        ensures { IfOk result (λ text. string_bytes text ≡ left_of (position_of self.now)) }
    {
        let mut text = String::new(alloc);
        push_left(
            &mut text,
            alloc,
            Way::Client,
            self.client.place,
            self.client.came,
        )?;
        push_left(
            &mut text,
            alloc,
            Way::Server,
            self.server.place,
            self.server.came,
        )?;
        Ok(text)
    }

    /// Does what a line says, and gives what is told.
    fn perform(&mut self, alloc: A, line: CaptureLine<A>) -> Result<String<A>, AllocError>
        ensures { IfOk result (λ text. Does (says_of line) (position_of self.old) (position_of self.new) (string_bytes text)) }
    {
        match line {
            CaptureLine::Came(Way::Client, bytes) => read_bytes(
                alloc,
                Way::Client,
                &mut self.client,
                &mut self.asked,
                bytes.as_slice(),
            ),
            CaptureLine::Came(Way::Server, bytes) => read_bytes(
                alloc,
                Way::Server,
                &mut self.server,
                &mut self.asked,
                bytes.as_slice(),
            ),
            CaptureLine::Opened => {
                let text = self.left(alloc)?;
                *self = CaptureStream::new(alloc);
                Ok(text)
            }
            CaptureLine::Passed => Ok(String::new(alloc)),
            CaptureLine::Over => self.left(alloc),
        }
    }

    /// Reads a line and does what it says.
    fn read_line(&mut self, alloc: A, line: &[u8]) -> Result<String<A>, ScriptFault>
        ensures ok { IfOk result (λ text. TakesLine line.now (position_of self.old) (position_of self.new) (string_bytes text)) }
        ensures err { IfErr result (λ fault. fault ≢ ScriptFault.Memory → said (words_of line.now) ≡ Err fault) }
    {
        let words = words_of(alloc, line)?;
        match parse_line(alloc, words.as_slice())? {
            Some(line) => Ok(self.perform(alloc, line)?),
            None => Ok(String::new(alloc)),
        }
    }
}

impl<A: Allocator + Copy> LineReader<A> for CaptureStream<A> {
    ghost Position = { Position };

    ghost rules = { rules };

    ghost stands = { λ stream position. position_of stream ≡ position };

    fn read(&mut self, alloc: A, line: &[u8]) -> Result<String<A>, LineStop> {
        match self.read_line(alloc, line) {
            Ok(text) => Ok(text),
            Err(fault) => Err(LineStop::from(fault)),
        }
    }
}
