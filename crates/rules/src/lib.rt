// What is told of an event and of a key. The rules themselves are definitions: they stand in specs/.
#![tactic(auto)]

// "The answer is code, domain, links"; "the answer gains two numbers", where the image is wrong. Codes and rules are numbers, since the
// theorems of `demands` and a caller in C read them as 01 numbers them.
#[derive(Clone, Copy)]
pub struct Answer {
    pub code: u8,
    pub domain: u8,
    pub links: u8,
    pub rule: u8,
    pub offset: u16,
}

// Where an image is wrong: a field of the header by its first byte, or a record by its number.
#[derive(Clone, Copy)]
pub enum Site {
    Header(usize),
    Certificate(usize),
    Card(usize),
    Executable(usize),
    Row(usize),
}

// The first broken rule, 1 to 8, and where: 0 and the image's first byte where none is broken, which `fault` gives of every image. `open` gives it
// only where one is broken.
#[derive(Clone, Copy)]
pub struct Fault {
    pub rule: u8,
    pub site: Site,
}

// What a signing key chains to: the domain and the link count, 0 and 0 where there is no chain, as the answer has them (`no_domain_no_links`).
#[derive(Clone, Copy)]
pub struct Chained {
    pub domain: u8,
    pub links: u8,
}
