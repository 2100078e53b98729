// The services on streams.

ghost use Rattle.std.specs.Prelude.{◌≡◌, ◌≢◌, ◌&&◌, not, true, ℕ, List, Option, Some, IfOk, IfErr, Err};
ghost use Rattle.std.specs.List.{list_any};
ghost use Rattle.std.specs.FinMap as finite;
ghost use Rattle.tu_base.specs.declared.event.Event.{Event};
ghost use Rattle.tu_base.specs.Files.{Files};
ghost use Rattle.tu_outside.specs.Causes.{HasCauseAt};
ghost use Rattle.rv_image.specs.Streams.{World, Over, Finishes, traced, kept, stream, is_file_name as is_name_of_file, is_named, opens, closes, puts, gets};
ghost use Rattle.rv_host.specs.Slots.{Comes};
ghost use Rattle.rv_host.specs.Served.{seen, served_as, Serves, opened_of, reading_of, shown_option};

use crate::name::is_file_name;
use crate::service::{NO_BYTE, Reply, ServiceError};
use crate::stream::{MOST, Stream};
use crate::streams::Streams;
use std::alloc::Global;
use tu_base::Bytes;
use tu_outside::{Cabinet, Fetched};

// Keeps each file that is still written, before a run is over with this reply.
pub fn finish<K: Cabinet>(
    alloc: Global,
    streams: &Streams,
    cabinet: &mut K,
    reply: Reply,
) -> Result<Reply, ServiceError>
    ensures serves { (how : Over) → ((w : World) → Finishes how w ≡ served_as reply w) → (left : Option (List ℕ)) (events : Option (List Event))
        → Serves (λ _ w. Finishes how (traced w (kept w.streams)))
        (seen left events (K.files cabinet.old) streams.now) (seen left events (K.files cabinet.new) streams.now) result }
    ensures cause { HasCauseAt ServiceError.Cabinet (K.faults cabinet.old) (K.faults cabinet.new) result }
    ensures other { result ≢ Err ServiceError.Console }
{
    match streams.keep_all(alloc, cabinet) {
        Ok(()) => Ok(reply),
        Err(error) => Err(ServiceError::from(error)),
    }
}

// Opens a file, where it can be, and answers the number of the stream or 0.
pub fn open<K: Cabinet>(
    alloc: Global,
    name: &[u8],
    mode: u32,
    streams: &mut Streams,
    cabinet: &mut K,
) -> Result<Reply, ServiceError>
    ensures serves { (left : Option (List ℕ)) (events : Option (List Event))
        → Serves (λ folder w. opens folder (record w { opened = true }) name.now mode)
        (seen left events (K.files cabinet.old) streams.old) (seen left events (K.files cabinet.new) streams.new) result }
    ensures cause { HasCauseAt ServiceError.Cabinet (K.faults cabinet.old) (K.faults cabinet.new) result }
    ensures other { result ≢ Err ServiceError.Console }
{
    let Some(number) = streams.least_free() else {
        return Ok(Reply::Word(0));
    };
    if !may_open(name, streams) {
        return Ok(Reply::Word(0));
    }
    match opened(alloc, name, mode, cabinet) {
        Ok(Some(stream)) => {
            streams.set(number, stream);
            Ok(Reply::Word(number))
        }
        Ok(None) => Ok(Reply::Word(0)),
        Err(error) => Err(error),
    }
}

// A file that is open is not opened again.
fn may_open(name: &[u8], streams: &Streams) -> bool
    ensures { result ≡ (is_name_of_file name.now && not (list_any (is_named name.now) streams.now)) }
{
    is_file_name(name) && !streams.is_open(name)
}

// The stream of a file that is opened. None says that it cannot be read.
fn opened<K: Cabinet>(
    alloc: Global,
    name: &[u8],
    mode: u32,
    cabinet: &mut K,
) -> Result<Option<Stream>, ServiceError>
    ensures opened { IfOk result (λ slot. (files : Files) → K.files cabinet.old ≡ Some files → shown_option slot ≡ opened_of files name.now mode) }
    ensures same { K.files cabinet.new ≡ K.files cabinet.old }
    ensures cause { HasCauseAt ServiceError.Cabinet (K.faults cabinet.old) (K.faults cabinet.new) result }
    ensures other { result ≢ Err ServiceError.Console }
{
    let name = match Bytes::from_slice(alloc, name) {
        Ok(name) => name,
        Err(error) => return Err(ServiceError::from(error)),
    };
    if mode == 0 {
        to_read(alloc, name, cabinet)
    } else {
        let contents = Bytes::make(alloc);
        Ok(Some(Stream::Writing { name, contents }))
    }
}

// What is read is what the file has now.
fn to_read<K: Cabinet>(
    alloc: Global,
    name: Bytes,
    cabinet: &mut K,
) -> Result<Option<Stream>, ServiceError>
    ensures opened { IfOk result (λ slot. (files : Files) → K.files cabinet.old ≡ Some files → shown_option slot ≡ reading_of name (finite.get files name)) }
    ensures same { K.files cabinet.new ≡ K.files cabinet.old }
    ensures cause { HasCauseAt ServiceError.Cabinet (K.faults cabinet.old) (K.faults cabinet.new) result }
    ensures other { result ≢ Err ServiceError.Console }
{
    match cabinet.fetch(alloc, &name, MOST as u64) {
        Ok(Fetched::Whole(contents)) => Ok(Some(Stream::Reading {
            name,
            contents,
            next: 0,
        })),
        Ok(Fetched::Absent) => Ok(None),
        Ok(Fetched::TooLong) => Ok(None),
        Err(error) => Err(ServiceError::from(error)),
    }
}

// Closes a stream, and keeps its file where it was written. The answer is 1 where it was not open.
pub fn close<K: Cabinet>(
    alloc: Global,
    number: u32,
    streams: &mut Streams,
    cabinet: &mut K,
) -> Result<Reply, ServiceError>
    ensures serves { (left : Option (List ℕ)) (events : Option (List Event)) → Serves (λ _ w. closes w number (stream w number))
        (seen left events (K.files cabinet.old) streams.old) (seen left events (K.files cabinet.new) streams.new) result }
    ensures cause { HasCauseAt ServiceError.Cabinet (K.faults cabinet.old) (K.faults cabinet.new) result }
    ensures other { result ≢ Err ServiceError.Console }
{
    let stream = streams.take(number);
    if stream.is_free() {
        return Ok(Reply::Word(1));
    }
    match stream.keep(alloc, cabinet) {
        Ok(()) => Ok(Reply::Word(0)),
        Err(error) => Err(ServiceError::from(error)),
    }
}

// Appends bytes to a file that is written. The answer is 1 where there is none, and 2 where it has no room for them.
pub fn put_stream(number: u32, bytes: &[u8], streams: &mut Streams) -> Result<Reply, ServiceError>
    ensures serves { (left : Option (List ℕ)) (events : Option (List Event)) (files : Option Files)
        → Serves (λ _ w. puts w number bytes.now (stream w number)) (seen left events files streams.old) (seen left events files streams.new) result }
    ensures only { IfErr result (λ error. error ≡ ServiceError.Memory) }
{
    match streams.put(number, bytes) {
        Ok(answer) => Ok(Reply::Word(answer)),
        Err(error) => Err(ServiceError::from(error)),
    }
}

// The next byte of a file that is read, and all ones where there is none.
pub fn get_stream(number: u32, streams: &mut Streams) -> u32
    ensures { Comes (λ w. gets w number (stream w number)) result streams.old streams.new }
{
    match streams.next(number) {
        Some(byte) => byte as u32,
        None => NO_BYTE,
    }
}
