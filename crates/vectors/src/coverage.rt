// What the cases covered: how often each kind of event got each code, and each domain and link count of the two kinds that tell a chain.
ghost use Rattle.std.specs.Prelude.{◌<◌, ◌≤◌, ◌≡◌, cond, leb, length};

use differences::{answer_of, kind_of};
use records::Event;
use stream::STDOUT;

// Kinds 0 to 16, where 0 stands for all that are none, and codes 0 to 18; domains 0 to 3, and links 0 to 4.
const KINDS: usize = 17;

const CODES: usize = 19;

const DOMAINS: usize = 4;

const LINKS: usize = 5;

// The counts by kind and code, and those by domain and links, of verified applications and of granted requests.
#[derive(Drop)]
pub(crate) struct Coverage {
    codes: [[u64; CODES]; KINDS],
    verified: [[u64; LINKS]; DOMAINS],
    granted: [[u64; LINKS]; DOMAINS],
}

// ---- counted

// A place outside the table is not counted.
fn count<const COLUMNS: usize>(table: &mut [[u64; COLUMNS]], row: usize, column: usize) {
    if row < table.len() && column < COLUMNS {
        table[row][column] = table[row][column].saturating_add(1);
    }
}

// The row of a kind: row 0 is that of every number that is no kind, which is counted like the others.
fn row(kind: u8) -> usize
    ensures in_table { result < 17 }
    ensures value { result ≡ cond (leb 17 kind) 0 kind }
{
    if KINDS <= kind as usize {
        return 0;
    }
    kind as usize
}

impl Coverage {
    pub(crate) fn new() -> Coverage {
        Coverage {
            codes: [[0; CODES]; KINDS],
            verified: [[0; LINKS]; DOMAINS],
            granted: [[0; LINKS]; DOMAINS],
        }
    }

    // An answer that a refused image gets is not counted.
    fn count_answer(&mut self, kind: u8, told: u64) {
        if told >> 24 != 0 {
            return;
        }
        let a = answer_of(told);
        count(&mut self.codes, row(kind), a.code as usize);
        if a.code != 0 {
            return;
        }
        match kind {
            Event::VERIFY => count(&mut self.verified, a.domain as usize, a.links as usize),
            Event::REQUEST => count(&mut self.granted, a.domain as usize, a.links as usize),
            _ => {}
        }
    }

    // The answers of a case, each to the event at its place.
    pub(crate) fn count_answers(&mut self, events: &[u8], told: &[u64])
        requires { length told.now ≤ 4096 }
    {
        for (i, t) in told.iter().enumerate() {
            self.count_answer(kind_of(events, i), *t);
        }
    }

    pub(crate) fn report(&self) {
        say(b"kind code times\n");
        say_table(&self.codes);
        say(b"verified: domain links times\n");
        say_table(&self.verified);
        say(b"granted: domain links times\n");
        say_table(&self.granted);
    }
}

// ---- said

fn say(text: &[u8]) {
    io::write_all(STDOUT, text);
}

fn say_number(n: u64) {
    io::print_decimal(STDOUT, n);
}

fn say_count(a: usize, b: usize, times: u64) {
    say_number(a as u64);
    say(b" ");
    say_number(b as u64);
    say(b" ");
    say_number(times);
    say(b"\n");
}

// One line for each count that is not 0.
fn say_table<const COLUMNS: usize>(table: &[[u64; COLUMNS]]) {
    for (i, row) in table.iter().enumerate() {
        for (j, times) in row.iter().enumerate() {
            if *times != 0 {
                say_count(i, j, *times);
            }
        }
    }
}
