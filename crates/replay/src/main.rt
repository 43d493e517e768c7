// Replays the recorded list of the original's answers, read from standard input, against our calls. Prints one line a
// group: its name, how many cases it has, and "same", or "differs at" and the number of the first case that differs.
// A line of the list is a comment (#), the name of a group (g), the two lent tables for the cases after it (k), or a case.
#![tactic(auto)]

ghost use Rattle.std.specs.Prelude.{◌≡◌, ◌<◌, ◌≤◌, IfOk, IfSome, length};

use recorded::Room;
use std::io;
use std::io::{Read, Write};

// What the group that is open has come to: its cases so far, and the number of the first that differs.
#[derive(Clone, Copy)]
struct Group {
    count: u64,
    first: Option<u64>,
}

impl Group {
    fn new() -> Self {
        Group {
            count: 0,
            first: None,
        }
    }

    // One case more. No more than a million are counted.
    fn counted(self, same: bool) -> Self {
        let count = (self.count.min(999_999)) + 1;
        Group {
            count,
            first: self.first.or(if same { None } else { Some(count) }),
        }
    }

    // Ends the group's line.
    fn told(self, rt: &impl Print) -> io::Result<()> {
        let count = self.count;
        match self.first {
            None => println!(rt; " {count} same"),
            Some(first) => println!(rt; " {count} differs at {first}"),
        }
    }
}

// The line of the tables, where the call is lent them.
fn lent(tables: &[u8], letter: u8) -> &[u8] {
    if picture_cases::has_tables(letter) {
        tables
    } else {
        &[]
    }
}

// Whether our answer to a case is the recorded one. The tables are its first tokens. Kept: a call goes by its letter in the
// list, of which there may be others; each crate of cases says which are its own.
fn same(tables: &[u8], line: &[u8], letter: u8, room: &mut Room) -> bool {
    room.clear();
    room.decode(lent(tables, letter));
    room.decode(line);
    if picture_cases::has_tables(letter) {
        return picture_cases::same(letter, room);
    }
    if record_cases::has_records(letter) {
        return record_cases::same(letter, room);
    }
    cases::same(letter, room)
}

// The first line of a list that has one, and what is behind it. The library's iterator over such parts, `split_inclusive`,
// gets no proof in the loop below, whose function has a handle.
fn first_line(list: &[u8]) -> Option<(&[u8], &[u8])>
    ensures { IfSome result (λ lines. length lines.1.now < length list.now) }
{
    if list.is_empty() {
        return None;
    }
    let end = recorded::find(list, 0, b'\n');
    Some((&list[..end], list.get(end + 1..).unwrap_or(&[])))
}

fn replay(rt: &impl Print, list: &[u8], room: &mut Room) -> io::Result<()> {
    let mut group: Option<Group> = None;
    let mut tables: &[u8] = &[];
    let mut rest = list;
    while let Some((line, behind)) = first_line(rest) {
        rest = behind;
        match recorded::byte_at(line, 0) {
            b'#' => {}
            b'k' => tables = line,
            b'g' => {
                if let Some(ended) = group {
                    ended.told(rt)?;
                }
                io::writer(rt).write_all(line.get(2..).unwrap_or(&[]))?;
                group = Some(Group::new());
            }
            letter => {
                let same = same(tables, line, letter, room);
                group = Some(group.unwrap_or(Group::new()).counted(same));
            }
        }
    }
    match group {
        Some(ended) => ended.told(rt),
        None => Ok(()),
    }
}

// Room for the whole list. Kept: an array of so many zeros in `main` is computed by the check, which runs out of stack at it.
fn list_buffer() -> [u8; 600000]
    ensures { 600000 ≡ length result }
{
    [0; 600000]
}

// Reads standard input into the buffer, to the end of either. Answers how many bytes there are. Kept: what the library reads
// to the end goes into a Vec, and there is no heap.
fn read_full(rt: &impl Input, buf: &mut [u8]) -> io::Result<usize>
    ensures { IfOk result (λ n. n ≤ length buf.new) }
{
    let mut reader = rt.reader();
    let mut n = 0;
    while n < buf.len() {
        let more = reader.read(&mut buf[n..])?;
        if more == 0 {
            return Ok(n);
        }
        n += more;
    }
    Ok(n)
}

fn main(rt: HostRuntime) -> io::Result<()> {
    let mut list = list_buffer();
    let n = read_full(&rt, &mut list)?;
    let mut room = Room::new();
    replay(&rt, &list[..n], &mut room)
}
