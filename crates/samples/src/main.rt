// Samples, printed and compared with a stored output: files of the folder data/ listed as the list
// program lists them, among them records of source documents 001 (sections 3.2.1, 3.2.2 and 3.5.12)
// and 004 (sections 4.4.146 to 4.4.149), one whose lengths are padded with 0 to 7 spaces at four
// depths, and two with objects of classes U and F, of which one does not divide; a file with labels of
// both versions, listed and then read with both allowed; the opening of that record of file 12;
// document 01's cases that are not proved, 6 (depths 8 and 9) and 9 (windows at the end of a waveform
// row); and rows of two files, an original and its substitute, with their bytes.
#![tactic(auto)]

use answer::{Address, Nesting, Part, Refused, Shown, Window};
use label::Versions;
use reader::Kind;
use std::fs::File;
use std::io;
use std::io::Write;
use substitute::{Chosen, Source};

// How many bytes a waveform row has.
const ROW: usize = 2080;

// (What is printed with and where from stay parameters here, as in std's own calls; so do an original and its
// substitute, as in those of `substitute`.)

// Prints bytes as they are.
fn print(rt: &HostRuntime, bytes: &[u8]) -> io::Result<()> {
    io::writer(rt).write_all(bytes)
}

// Reads a file, or as much of it as there is room for, and lends its bytes.
fn read<'a>(rt: &HostRuntime, name: &str, memory: &'a mut [u8]) -> io::Result<&'a [u8]> {
    let mut file = File::open(rt, name)?;
    let size = input::read_up_to(&mut file, memory).map_err(|_| io::Error::other(name))?;
    Ok(&memory[..size])
}

// Prints a file's name and its listing. As in the list program, one byte more than the largest
// file is asked for.
fn list(rt: &HostRuntime, name: &str) -> io::Result<()> {
    println!(rt; "{name}")?;
    let mut memory = [0u8; 65537];
    let mut text = [0u8; 81920];
    let size = listing::write_listing(read(rt, name, &mut memory)?, &mut text);
    print(rt, &text[..size])
}

// A time of the sample record: 1 second before or after the epoch.
fn named(time: f64) -> &'static str {
    if time == 1.0 {
        "1"
    } else if time == -1.0 {
        "-1"
    } else {
        "another"
    }
}

// Prints the opening of a record of file 12: its data block begins 8 bytes into the value, after the
// secondary header, and so 28 bytes after the label's first.
fn print_opening(rt: &HostRuntime, name: &str) -> io::Result<()> {
    let mut memory = [0u8; 540];
    let mut file = File::open(rt, name)?;
    // Of a failed read what was read, as the sample has always been.
    let _ = input::read_up_to(&mut file, &mut memory);
    match orbit::per_orbit_opening(&memory[28..]) {
        Ok(opening) => println!(rt;
            "opening {} {} {}",
            opening.orbit,
            named(opening.start),
            named(opening.stop)
        ),
        Err(refused) => println!(rt; "opening {refused}"),
    }
}

// Prints what is shown of a row, place, count and address, or the refusal.
fn print_shown(rt: &HostRuntime, shown: Result<Shown, Refused>) -> io::Result<()> {
    match shown {
        Ok(Shown { part, address }) => {
            print!(rt; " {} {} {}", part.place, part.count, address.label)?;
            match address.nesting {
                Some(Nesting { depth, outermost }) => print!(rt; " {depth} {outermost}"),
                None => print!(rt; " absent absent"),
            }
        }
        Err(refused) => print!(rt; " {refused}"),
    }
}

// Prints how many rows a file has, with both versions of the label allowed, and where the first three
// begin.
fn print_both_versions(rt: &HostRuntime, name: &str) -> io::Result<()> {
    let mut memory = [0u8; 108];
    let mut file = File::open(rt, name)?;
    // Of a failed read what was read, as the sample has always been.
    let _ = input::read_up_to(&mut file, &mut memory);
    let file = &memory;
    let kind = Kind::Labelled(Versions::OneAndTwo);
    match reader::check(kind, file) {
        Ok(rows) => println!(rt; "both versions: {rows}")?,
        Err(refused) => println!(rt; "both versions: {refused}")?,
    }
    for k in 0..3 {
        print!(rt; "row {k}:")?;
        let nothing = Window { first: 0, count: 0 };
        print_shown(rt, reader::read_row(kind, file, k, nothing))?;
        println!(rt)?;
    }
    Ok(())
}

// Prints a window of the one row of a waveform file, read and jumped to.
fn print_window(rt: &HostRuntime, window: Window) -> io::Result<()> {
    let file = [0u8; ROW];
    print!(rt; "window {} {}: read", window.first, window.count)?;
    print_shown(rt, reader::read_row(Kind::Waveform, &file, 0, window))?;
    print!(rt; ", jumped to")?;
    print_shown(rt, reader::jump_row(Kind::Waveform, &file, &[], 0, window))?;
    println!(rt)
}

// Prints a row that was chosen: of which file it is, its place, and its bytes.
fn print_chosen(
    rt: &HostRuntime,
    original: &[u8],
    substitute: &[u8],
    found: Chosen,
) -> io::Result<()> {
    let source = match found.source {
        Source::Original => "original",
        Source::Substitute => "substitute",
    };
    print!(rt; " {source} {} ", found.row.part.place)?;
    print(rt, substitute::bytes_of(original, substitute, found))?;
    println!(rt)
}

// Prints row `k` of a file with a substitute.
fn print_either(rt: &HostRuntime, original: &[u8], substitute: &[u8], k: usize) -> io::Result<()> {
    print!(rt; "with a substitute, row {k}:")?;
    match substitute::read_row(Versions::One, original, substitute, k) {
        Ok(found) => print_chosen(rt, original, substitute, found),
        Err(refused) => println!(rt; " {refused}"),
    }
}

// Prints rows of an original of two rows and a substitute of one: row 0, which both have; row 1; row 2,
// which neither has; row 0 where a byte of the substitute is missing; and what lies in the original of
// a part that runs past its end, which no call gave.
fn print_substitutes(rt: &HostRuntime) -> io::Result<()> {
    let original = b"NJPL1I00DEMO00000003abcNJPL1I00DEMO00000002de";
    let substitute = b"CCSD1Z00000100000023NJPL1I00DEMO00000003xyz";
    for k in 0..3 {
        print_either(rt, original, substitute, k)?;
    }
    print_either(
        rt,
        original,
        b"CCSD1Z00000100000023NJPL1I00DEMO00000003xy",
        0,
    )?;
    let row = Shown {
        part: Part {
            place: 44,
            count: 9,
        },
        address: Address {
            label: 24,
            nesting: None,
        },
    };
    let source = Source::Original;
    print!(rt; "a row that no call gave:")?;
    print_chosen(rt, original, substitute, Chosen { source, row })
}

fn main(rt: HostRuntime) -> io::Result<()> {
    for name in [
        "empty.sfdu",
        "outer_length_42.sfdu",
        "inner_length_24.sfdu",
        "depth_8.sfdu",
        "depth_9.sfdu",
        "nested_33_rows.sfdu",
        "volume_header.sfdu",
        "volume_trailer.sfdu",
        "file_12_record.sfdu",
    ] {
        list(&rt, name)?;
    }
    print_opening(&rt, "file_12_record.sfdu")?;
    for name in [
        "pass_file.sfdu",
        "padded_lengths.sfdu",
        "inner_sets.sfdu",
        "inner_set_cut.sfdu",
        "both_versions.sfdu",
    ] {
        list(&rt, name)?;
    }
    print_both_versions(&rt, "both_versions.sfdu")?;
    for name in ["bytes_65536.sfdu", "bytes_65537.sfdu"] {
        list(&rt, name)?;
    }
    for (first, count) in [(2048, 0), (2048, 1), (2049, 0)] {
        print_window(&rt, Window { first, count })?;
    }
    print_substitutes(&rt)
}
