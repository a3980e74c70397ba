// The C boundary: one exported function for each call of docs/CONFORMANCE.md, in its order, with
// `row_from` after the jumps. Renders document 01's "Every refusal carries its number and a place" as
// the result, by value, and an answer's parts through pointers, which a refused call does not write.
// A call that reads labels is told by `version_2` whether labels of version 2 are allowed. A row is six
// numbers: place, count, its label's place, 1 or 0 for whether its depth is known, its depth, its
// outermost object's place. A dot is four: its byte's place, the byte, its tone, 1 or 0 for whether it is
// set. What is answered is left to the crates below; the C declarations, and what a C caller owes, are left
// to the header. (Calls that differ in the kind of file alone, and numbers for verdicts, sources and modes,
// stay: the C interface has them. `Err(refused) => Status::from(refused)` stands where `?` would: a call
// answers a struct of C's.)
#![tactic(auto)]

ghost use Rattle.answer.specs.Told.{told};
ghost use Rattle.std.specs.Prelude.{◌≡◌, [], length as size};
ghost use Rattle.answer.specs.Outcome.{mapped};
ghost use Rattle.answer.specs.Filled.{filled};
ghost use Rattle.label.specs.Version.{version_number};
ghost use Rattle.label.specs.Label.{read_label};
ghost use Rattle.reader.specs.Rows.{check_file};
ghost use Rattle.reader.specs.Read.{read_row, jump_row, row_from};
ghost use Rattle.dots.specs.Tone.{tone};
ghost use Rattle.plotter.specs.Strip.{strip_into};
ghost use Rattle.trace.specs.Behind.{dot_numbers, dot_behind};
ghost use Rattle.substitute.specs.Chosen.{source_number};
ghost use Rattle.substitute.specs.Substitute.{read_either};
ghost use Rattle.row_index.specs.Index.{index_of, built_of, build_index, check_index};
ghost use Rattle.joined.specs.Joined.{join_index};
ghost use Rattle.kept.specs.Kept.{keep_index, load_kept};
ghost use Rattle.kept_rows.specs.Kind2.{list_of, loaded_of, load_kept2, to_kind1};
ghost use Rattle.kept_check.specs.Check.{to_kind2, check_kept2};
ghost use Rattle.waveform.specs.Sample.{twice_amplitude};
ghost use Rattle.vax.specs.Numbers.{vax_F, vax_D, vax_D_dropped};
ghost use Rattle.orbit.specs.Opening.{per_orbit_opening};
ghost use Rattle.verdicts.specs.Verdict.{verdict_of};
ghost use Rattle.burst_fields.specs.Fields.{field_of, field_verdict};
ghost use Rattle.burst_codes.specs.Beams.{verdict_in, beams_of};
ghost use Rattle.burst_codes.specs.Modes.{numbered};
ghost use Rattle.hand.specs.Handed.{status_of, handed};
ghost use Rattle.hand.specs.Parts.{row_numbers, side_number, in_numbers, beams_handed, mode_handed};
ghost use Rattle.hand.specs.Numbers.{choice_of, write_numbered};

use answer::{Refused, Window};
use hand::{Status, Stored};
use label::Version;
use limits::Table;
use reader::Kind;
use row_index::Built;
use substitute::Source;
use trace::Dot;

// The label at the front of the bytes.
#[unsafe(no_mangle)]
pub extern "C" fn crest_read_label(
    bytes: &[u8],
    version_2: bool,
    agency: &mut [u8; 4],
    version: &mut u8,
    class: &mut u8,
    description: &mut [u8; 4],
    length: &mut usize,
    spaces: &mut u8,
) -> Status
    ensures value { result ≡ status_of (read_label (choice_of version_2) bytes.now) }
    ensures agency_after { agency.new ≡ handed (λ l. l.agency) (read_label (choice_of version_2) bytes.now) agency.old }
    ensures version_after { version.new ≡ handed (λ l. version_number l.version) (read_label (choice_of version_2) bytes.now) version.old }
    ensures class_after { class.new ≡ handed (λ l. l.class) (read_label (choice_of version_2) bytes.now) class.old }
    ensures description_after { description.new ≡ handed (λ l. l.description) (read_label (choice_of version_2) bytes.now) description.old }
    ensures length_after { length.new ≡ handed (λ l. l.length) (read_label (choice_of version_2) bytes.now) length.old }
    ensures spaces_after { spaces.new ≡ handed (λ l. l.spaces) (read_label (choice_of version_2) bytes.now) spaces.old }
{
    match label::read_label(hand::choice(version_2), bytes) {
        Ok(l) => {
            let by = l.agency;
            let about = l.description;
            *agency = by;
            *version = l.version.number();
            *class = l.class;
            *description = about;
            *length = l.length;
            *spaces = l.spaces;
            hand::DONE
        }
        Err(refused) => Status::from(refused),
    }
}

// Writes the label of this version with bytes 0-11 as lent and this length to the first 20 bytes of
// `out`. With a version that is neither 1 nor 2 no byte 4 agrees.
#[tactic(auto, unfolding(hand::specs::Numbers::write_numbered))]
#[unsafe(no_mangle)]
pub extern "C" fn crest_write_label(
    version: u8,
    head: &[u8],
    length: usize,
    out: &mut [u8],
    written: &mut usize,
) -> Status
    ensures value { result ≡ status_of (write_numbered version head.now length (size out.old)) }
    ensures out_after { out.new ≡ filled (write_numbered version head.now length (size out.old)) out.old }
    ensures written_after { written.new ≡ handed size (write_numbered version head.now length (size out.old)) written.old }
{
    match Version::try_from(version) {
        Ok(known) => { hand::value(label_writer::write_label(known, head, length, out), written) }
        Err(refused) => Status::from(refused),
    }
}

// How many rows a labelled file has.
#[unsafe(no_mangle)]
pub extern "C" fn crest_check_labelled(file: &[u8], version_2: bool, rows: &mut usize) -> Status
    ensures value { result ≡ status_of (check_file (Kind.Labelled (choice_of version_2)) file.now) }
    ensures rows_after { rows.new ≡ handed (λ n. n) (check_file (Kind.Labelled (choice_of version_2)) file.now) rows.old }
{
    hand::value(
        reader::check(Kind::Labelled(hand::choice(version_2)), file),
        rows,
    )
}

// How many rows a waveform file has.
#[unsafe(no_mangle)]
pub extern "C" fn crest_check_waveform(file: &[u8], rows: &mut usize) -> Status
    ensures value { result ≡ status_of (check_file Kind.Waveform file.now) }
    ensures rows_after { rows.new ≡ handed (λ n. n) (check_file Kind.Waveform file.now) rows.old }
{
    hand::value(reader::check(Kind::Waveform, file), rows)
}

// How many records a burst file has from its first one on.
#[unsafe(no_mangle)]
pub extern "C" fn crest_check_bursts(file: &[u8], start: usize, rows: &mut usize) -> Status
    ensures value { result ≡ status_of (check_file (Kind.Bursts start) file.now) }
    ensures rows_after { rows.new ≡ handed (λ n. n) (check_file (Kind.Bursts start) file.now) rows.old }
{
    hand::value(reader::check(Kind::Bursts(start), file), rows)
}

// A window of a labelled file's row, read from the first byte.
#[unsafe(no_mangle)]
pub extern "C" fn crest_read_row_labelled(
    file: &[u8],
    version_2: bool,
    row: usize,
    first: usize,
    count: usize,
    shown: &mut [usize; 6],
) -> Status
    ensures value { result ≡ status_of (read_row (Kind.Labelled (choice_of version_2)) file.now row first count) }
    ensures shown_after { shown.new ≡ handed (row_numbers shown.old) (read_row (Kind.Labelled (choice_of version_2)) file.now row first count) shown.old }
{
    hand::row(
        reader::read_row(
            Kind::Labelled(hand::choice(version_2)),
            file,
            row,
            Window { first, count },
        ),
        shown,
    )
}

// A window of a waveform file's row, read from the first byte.
#[unsafe(no_mangle)]
pub extern "C" fn crest_read_row_waveform(
    file: &[u8],
    row: usize,
    first: usize,
    count: usize,
    shown: &mut [usize; 6],
) -> Status
    ensures value { result ≡ status_of (read_row Kind.Waveform file.now row first count) }
    ensures shown_after { shown.new ≡ handed (row_numbers shown.old) (read_row Kind.Waveform file.now row first count) shown.old }
{
    hand::row(
        reader::read_row(Kind::Waveform, file, row, Window { first, count }),
        shown,
    )
}

// A window of a burst file's record, read from the first record on.
#[unsafe(no_mangle)]
pub extern "C" fn crest_read_row_bursts(
    file: &[u8],
    start: usize,
    row: usize,
    first: usize,
    count: usize,
    shown: &mut [usize; 6],
) -> Status
    ensures value { result ≡ status_of (read_row (Kind.Bursts start) file.now row first count) }
    ensures shown_after { shown.new ≡ handed (row_numbers shown.old) (read_row (Kind.Bursts start) file.now row first count) shown.old }
{
    hand::row(
        reader::read_row(Kind::Bursts(start), file, row, Window { first, count }),
        shown,
    )
}

// A window of a labelled file's row, jumped to by the list.
#[unsafe(no_mangle)]
pub extern "C" fn crest_jump_labelled(
    file: &[u8],
    version_2: bool,
    list: &[u32],
    row: usize,
    first: usize,
    count: usize,
    shown: &mut [usize; 6],
) -> Status
    ensures value { result ≡ status_of (jump_row (Kind.Labelled (choice_of version_2)) file.now list.now row first count) }
    ensures shown_after { shown.new ≡ handed (row_numbers shown.old) (jump_row (Kind.Labelled (choice_of version_2)) file.now list.now row first count) shown.old }
{
    hand::row(
        reader::jump_labelled(
            hand::choice(version_2),
            file,
            list,
            row,
            Window { first, count },
        ),
        shown,
    )
}

// A window of a waveform file's row, jumped to with no list.
#[unsafe(no_mangle)]
pub extern "C" fn crest_jump_waveform(
    file: &[u8],
    row: usize,
    first: usize,
    count: usize,
    shown: &mut [usize; 6],
) -> Status
    ensures value { result ≡ status_of (jump_row Kind.Waveform file.now [] row first count) }
    ensures shown_after { shown.new ≡ handed (row_numbers shown.old) (jump_row Kind.Waveform file.now [] row first count) shown.old }
{
    hand::row(
        reader::jump_waveform(file, row, Window { first, count }),
        shown,
    )
}

// A window of a burst file's record, jumped to with no list.
#[unsafe(no_mangle)]
pub extern "C" fn crest_jump_bursts(
    file: &[u8],
    start: usize,
    row: usize,
    first: usize,
    count: usize,
    shown: &mut [usize; 6],
) -> Status
    ensures value { result ≡ status_of (jump_row (Kind.Bursts start) file.now [] row first count) }
    ensures shown_after { shown.new ≡ handed (row_numbers shown.old) (jump_row (Kind.Bursts start) file.now [] row first count) shown.old }
{
    hand::row(
        reader::jump_bursts(file, start, row, Window { first, count }),
        shown,
    )
}

// The first row of a labelled file from a place on.
#[tactic(auto, unfolding(reader::specs::Read::row_from))]
#[unsafe(no_mangle)]
pub extern "C" fn crest_row_from_labelled(
    file: &[u8],
    version_2: bool,
    from: usize,
    shown: &mut [usize; 6],
) -> Status
    ensures value { result ≡ status_of (row_from (Kind.Labelled (choice_of version_2)) file.now from) }
    ensures shown_after { shown.new ≡ handed (row_numbers shown.old) (row_from (Kind.Labelled (choice_of version_2)) file.now from) shown.old }
{
    hand::row(
        walk::row_from(hand::choice(version_2), file, from, 0),
        shown,
    )
}

// The first row of a waveform file from a place on.
#[tactic(auto, unfolding(reader::specs::Read::row_from))]
#[unsafe(no_mangle)]
pub extern "C" fn crest_row_from_waveform(
    file: &[u8],
    from: usize,
    shown: &mut [usize; 6],
) -> Status
    ensures value { result ≡ status_of (row_from Kind.Waveform file.now from) }
    ensures shown_after { shown.new ≡ handed (row_numbers shown.old) (row_from Kind.Waveform file.now from) shown.old }
{
    hand::row(waveform::row_from(file, from), shown)
}

// The record of a burst file that begins at a place.
#[tactic(auto, unfolding(reader::specs::Read::row_from))]
#[unsafe(no_mangle)]
pub extern "C" fn crest_row_from_bursts(
    file: &[u8],
    start: usize,
    from: usize,
    shown: &mut [usize; 6],
) -> Status
    ensures value { result ≡ status_of (row_from (Kind.Bursts start) file.now from) }
    ensures shown_after { shown.new ≡ handed (row_numbers shown.old) (row_from (Kind.Bursts start) file.now from) shown.old }
{
    hand::row(bursts::row_from(file, start, from), shown)
}

// The number of a source for C.
fn source_number(source: Source) -> usize
    ensures { result ≡ source_number source }
{
    match source {
        Source::Original => 0,
        Source::Substitute => 1,
    }
}

// A row of a labelled file, whole, from its substitute where that has it, else from the original; and
// which of the two it came from: 0 the original, 1 the substitute.
#[unsafe(no_mangle)]
pub extern "C" fn crest_substitute_row(
    original: &[u8],
    substitute: &[u8],
    version_2: bool,
    row: usize,
    source: &mut usize,
    shown: &mut [usize; 6],
) -> Status
    ensures value { result ≡ status_of (read_either (choice_of version_2) original.now substitute.now row) }
    ensures source_after { source.new ≡ handed (λ c. source_number c.source) (read_either (choice_of version_2) original.now substitute.now row) source.old }
    ensures shown_after { shown.new ≡ handed (λ c. row_numbers shown.old c.row) (read_either (choice_of version_2) original.now substitute.now row) shown.old }
{
    match substitute::read_row(hand::choice(version_2), original, substitute, row) {
        Ok(found) => {
            *source = source_number(found.source);
            hand::row(Ok(found.row), shown)
        }
        Err(refused) => Status::from(refused),
    }
}

// How many entries of an index were written, and for how many rows.
fn indexed(answer: Result<Built, Refused>, entries: &mut usize, rows: &mut usize) -> Status
    ensures value { result ≡ status_of (told answer) }
    ensures entries_after { entries.new ≡ handed (λ b. b.entries) (told answer) entries.old }
    ensures rows_after { rows.new ≡ handed (λ b. b.rows) (told answer) rows.old }
{
    match answer {
        Ok(b) => {
            *entries = b.entries;
            *rows = b.rows;
            hand::DONE
        }
        Err(refused) => Status::from(refused),
    }
}

// Writes the index of a labelled file to the front of the list.
#[unsafe(no_mangle)]
pub extern "C" fn crest_build_index(
    file: &[u8],
    version_2: bool,
    list: &mut [u32],
    entries: &mut usize,
    rows: &mut usize,
) -> Status
    ensures value { result ≡ status_of (mapped built_of (build_index (choice_of version_2) file.now (size list.old))) }
    ensures list_after { list.new ≡ filled (mapped index_of (build_index (choice_of version_2) file.now (size list.old))) list.old }
    ensures entries_after { entries.new ≡ handed (λ b. b.entries) (mapped built_of (build_index (choice_of version_2) file.now (size list.old))) entries.old }
    ensures rows_after { rows.new ≡ handed (λ b. b.rows) (mapped built_of (build_index (choice_of version_2) file.now (size list.old))) rows.old }
{
    indexed(
        row_index::build_index(hand::choice(version_2), file, list),
        entries,
        rows,
    )
}

// Whether the whole list is the index of a labelled file.
#[unsafe(no_mangle)]
pub extern "C" fn crest_check_index(file: &[u8], version_2: bool, list: &[u32]) -> Status
    ensures { result ≡ status_of (check_index (choice_of version_2) file.now list.now) }
{
    hand::value(
        row_index::check_index(hand::choice(version_2), file, list),
        &mut (),
    )
}

// Writes the index of two labelled files set end to end to the front of the list; `index` is the first
// file's, `other` the second's.
#[unsafe(no_mangle)]
pub extern "C" fn crest_joined_index(
    first: &[u8],
    index: &[u32],
    second: &[u8],
    other: &[u32],
    version_2: bool,
    list: &mut [u32],
    entries: &mut usize,
    rows: &mut usize,
) -> Status
    ensures value { result ≡ status_of (mapped built_of (join_index (choice_of version_2) first.now index.now second.now other.now (size list.old))) }
    ensures list_after { list.new ≡ filled (mapped index_of (join_index (choice_of version_2) first.now index.now second.now other.now (size list.old))) list.old }
    ensures entries_after { entries.new ≡ handed (λ b. b.entries) (mapped built_of (join_index (choice_of version_2) first.now index.now second.now other.now (size list.old))) entries.old }
    ensures rows_after { rows.new ≡ handed (λ b. b.rows) (mapped built_of (join_index (choice_of version_2) first.now index.now second.now other.now (size list.old))) rows.old }
{
    indexed(
        joined::join_index(hand::choice(version_2), first, index, second, other, list),
        entries,
        rows,
    )
}

// Writes the kept form of a list to the front of `out`.
#[unsafe(no_mangle)]
pub extern "C" fn crest_keep_index(list: &[u32], out: &mut [u8], written: &mut usize) -> Status
    ensures value { result ≡ status_of (keep_index list.now (size out.old)) }
    ensures out_after { out.new ≡ filled (keep_index list.now (size out.old)) out.old }
    ensures written_after { written.new ≡ handed size (keep_index list.now (size out.old)) written.old }
{
    hand::value(kept::keep(list, out), written)
}

// Reads the list that a record of kind 1 keeps to the front of `list`.
#[unsafe(no_mangle)]
pub extern "C" fn crest_load_kept(bytes: &[u8], list: &mut [u32], entries: &mut usize) -> Status
    ensures value { result ≡ status_of (load_kept bytes.now (size list.old)) }
    ensures list_after { list.new ≡ filled (load_kept bytes.now (size list.old)) list.old }
    ensures entries_after { entries.new ≡ handed size (load_kept bytes.now (size list.old)) entries.old }
{
    hand::value(kept::load(bytes, list), entries)
}

// Reads the list that a record of kind 2 keeps to the front of `list`, and its row count.
#[unsafe(no_mangle)]
pub extern "C" fn crest_load_kept2(
    bytes: &[u8],
    list: &mut [u32],
    rows: &mut usize,
    entries: &mut usize,
) -> Status
    ensures value { result ≡ status_of (mapped loaded_of (load_kept2 bytes.now (size list.old))) }
    ensures list_after { list.new ≡ filled (mapped list_of (load_kept2 bytes.now (size list.old))) list.old }
    ensures rows_after { rows.new ≡ handed (λ l. l.rows) (mapped loaded_of (load_kept2 bytes.now (size list.old))) rows.old }
    ensures entries_after { entries.new ≡ handed (λ l. l.entries) (mapped loaded_of (load_kept2 bytes.now (size list.old))) entries.old }
{
    match kept_rows::load(bytes, list) {
        Ok(l) => {
            *rows = l.rows;
            *entries = l.entries;
            hand::DONE
        }
        Err(refused) => Status::from(refused),
    }
}

// Writes a record of kind 1 that keeps the file's index as one of kind 2 to the front of `out`.
#[unsafe(no_mangle)]
pub extern "C" fn crest_convert_1_to_2(
    file: &[u8],
    version_2: bool,
    kept: &[u8],
    out: &mut [u8],
    written: &mut usize,
) -> Status
    ensures value { result ≡ status_of (to_kind2 (choice_of version_2) file.now kept.now (size out.old)) }
    ensures out_after { out.new ≡ filled (to_kind2 (choice_of version_2) file.now kept.now (size out.old)) out.old }
    ensures written_after { written.new ≡ handed size (to_kind2 (choice_of version_2) file.now kept.now (size out.old)) written.old }
{
    hand::value(
        kept_check::to_kind_2(hand::choice(version_2), file, kept, out),
        written,
    )
}

// Writes the list that a record of kind 2 keeps as a record of kind 1 to the front of `out`.
#[unsafe(no_mangle)]
pub extern "C" fn crest_convert_2_to_1(kept: &[u8], out: &mut [u8], written: &mut usize) -> Status
    ensures value { result ≡ status_of (to_kind1 kept.now (size out.old)) }
    ensures out_after { out.new ≡ filled (to_kind1 kept.now (size out.old)) out.old }
    ensures written_after { written.new ≡ handed size (to_kind1 kept.now (size out.old)) written.old }
{
    hand::value(kept_rows::to_kind_1(kept, out), written)
}

// Whether a record of kind 2 keeps the index and the row count of a labelled file.
#[unsafe(no_mangle)]
pub extern "C" fn crest_check_kept2(file: &[u8], version_2: bool, kept: &[u8]) -> Status
    ensures { result ≡ status_of (check_kept2 (choice_of version_2) file.now kept.now) }
{
    hand::value(
        kept_check::check(hand::choice(version_2), file, kept),
        &mut (),
    )
}

// The tone of a sample.
#[unsafe(no_mangle)]
pub extern "C" fn crest_tone(sample: u8) -> u8
    ensures { result ≡ tone sample }
{
    dots::tone(sample)
}

// Writes the plotter lines of rows of a labelled file to the front of `out`.
#[unsafe(no_mangle)]
pub extern "C" fn crest_strip_labelled(
    file: &[u8],
    version_2: bool,
    row: usize,
    rows: usize,
    first: usize,
    count: usize,
    out: &mut [u8],
    written: &mut usize,
) -> Status
    ensures value { result ≡ status_of (strip_into (size out.old) (Kind.Labelled (choice_of version_2)) file.now row rows first count) }
    ensures out_after { out.new ≡ filled (strip_into (size out.old) (Kind.Labelled (choice_of version_2)) file.now row rows first count) out.old }
    ensures written_after { written.new ≡ handed size (strip_into (size out.old) (Kind.Labelled (choice_of version_2)) file.now row rows first count) written.old }
{
    hand::value(
        plotter::strip(
            Kind::Labelled(hand::choice(version_2)),
            file,
            row,
            rows,
            Window { first, count },
            out,
        ),
        written,
    )
}

// Those of a waveform file.
#[unsafe(no_mangle)]
pub extern "C" fn crest_strip_waveform(
    file: &[u8],
    row: usize,
    rows: usize,
    first: usize,
    count: usize,
    out: &mut [u8],
    written: &mut usize,
) -> Status
    ensures value { result ≡ status_of (strip_into (size out.old) Kind.Waveform file.now row rows first count) }
    ensures out_after { out.new ≡ filled (strip_into (size out.old) Kind.Waveform file.now row rows first count) out.old }
    ensures written_after { written.new ≡ handed size (strip_into (size out.old) Kind.Waveform file.now row rows first count) written.old }
{
    hand::value(
        plotter::strip(
            Kind::Waveform,
            file,
            row,
            rows,
            Window { first, count },
            out,
        ),
        written,
    )
}

// Those of bursts that begin at `start`.
#[unsafe(no_mangle)]
pub extern "C" fn crest_strip_bursts(
    file: &[u8],
    start: usize,
    row: usize,
    rows: usize,
    first: usize,
    count: usize,
    out: &mut [u8],
    written: &mut usize,
) -> Status
    ensures value { result ≡ status_of (strip_into (size out.old) (Kind.Bursts start) file.now row rows first count) }
    ensures out_after { out.new ≡ filled (strip_into (size out.old) (Kind.Bursts start) file.now row rows first count) out.old }
    ensures written_after { written.new ≡ handed size (strip_into (size out.old) (Kind.Bursts start) file.now row rows first count) written.old }
{
    hand::value(
        plotter::strip(
            Kind::Bursts(start),
            file,
            row,
            rows,
            Window { first, count },
            out,
        ),
        written,
    )
}

// A dot in four numbers: its byte's place, the byte, its tone, and whether the dot is set.
fn dot(answer: Result<Dot, Refused>, numbers: &mut [usize; 4]) -> Status
    ensures value { result ≡ status_of (told answer) }
    ensures numbers_after { numbers.new ≡ handed dot_numbers (told answer) numbers.old }
{
    match answer {
        Ok(dot) => {
            let byte = usize::from(dot.byte);
            let tone = usize::from(dot.tone);
            let set = usize::from(dot.set);
            *numbers = [dot.place, byte, tone, set];
            hand::DONE
        }
        Err(refused) => Status::from(refused),
    }
}

// The byte behind a dot of a strip of a labelled file.
#[unsafe(no_mangle)]
pub extern "C" fn crest_behind_labelled(
    file: &[u8],
    version_2: bool,
    row: usize,
    first: usize,
    count: usize,
    column: usize,
    line: usize,
    behind: &mut [usize; 4],
) -> Status
    ensures value { result ≡ status_of (dot_behind (Kind.Labelled (choice_of version_2)) file.now row first count column line) }
    ensures behind_after { behind.new ≡ handed dot_numbers (dot_behind (Kind.Labelled (choice_of version_2)) file.now row first count column line) behind.old }
{
    dot(
        trace::behind(
            Kind::Labelled(hand::choice(version_2)),
            file,
            row,
            Window { first, count },
            column,
            line,
        ),
        behind,
    )
}

// That of a waveform file.
#[unsafe(no_mangle)]
pub extern "C" fn crest_behind_waveform(
    file: &[u8],
    row: usize,
    first: usize,
    count: usize,
    column: usize,
    line: usize,
    behind: &mut [usize; 4],
) -> Status
    ensures value { result ≡ status_of (dot_behind Kind.Waveform file.now row first count column line) }
    ensures behind_after { behind.new ≡ handed dot_numbers (dot_behind Kind.Waveform file.now row first count column line) behind.old }
{
    dot(
        trace::behind(
            Kind::Waveform,
            file,
            row,
            Window { first, count },
            column,
            line,
        ),
        behind,
    )
}

// That of bursts that begin at `start`.
#[unsafe(no_mangle)]
pub extern "C" fn crest_behind_bursts(
    file: &[u8],
    start: usize,
    row: usize,
    first: usize,
    count: usize,
    column: usize,
    line: usize,
    behind: &mut [usize; 4],
) -> Status
    ensures value { result ≡ status_of (dot_behind (Kind.Bursts start) file.now row first count column line) }
    ensures behind_after { behind.new ≡ handed dot_numbers (dot_behind (Kind.Bursts start) file.now row first count column line) behind.old }
{
    dot(
        trace::behind(
            Kind::Bursts(start),
            file,
            row,
            Window { first, count },
            column,
            line,
        ),
        behind,
    )
}

// Twice the amplitude that a sample byte stands for: it never refuses, and returns the number itself.
#[unsafe(no_mangle)]
pub extern "C" fn crest_sample(sample: u8) -> i64
    ensures { result ≡ twice_amplitude sample }
{
    waveform::sample(sample)
}

// The VAX F number in the first 4 bytes.
#[unsafe(no_mangle)]
pub extern "C" fn crest_vax_f(bytes: &[u8], number: &mut f64) -> Status
    ensures value { result ≡ status_of (vax_F bytes.now) }
    ensures number_after { number.new ≡ handed (λ x. x) (vax_F bytes.now) number.old }
{
    hand::value(vax::vax_f(bytes), number)
}

// The VAX D number in the first 8 bytes, to the nearest float.
#[unsafe(no_mangle)]
pub extern "C" fn crest_vax_d(bytes: &[u8], number: &mut f64) -> Status
    ensures value { result ≡ status_of (vax_D bytes.now) }
    ensures number_after { number.new ≡ handed (λ x. x) (vax_D bytes.now) number.old }
{
    hand::value(vax::vax_d(bytes), number)
}

// The VAX D number in the first 8 bytes, its three lowest fraction bits dropped.
#[unsafe(no_mangle)]
pub extern "C" fn crest_vax_d_dropped(bytes: &[u8], number: &mut f64) -> Status
    ensures value { result ≡ status_of (vax_D_dropped bytes.now) }
    ensures number_after { number.new ≡ handed (λ x. x) (vax_D_dropped bytes.now) number.old }
{
    hand::value(vax::vax_d_dropped(bytes), number)
}

// The opening of the per-orbit parameters: the orbit's number, and when its mapping starts and stops.
#[unsafe(no_mangle)]
pub extern "C" fn crest_opening(
    bytes: &[u8],
    orbit: &mut usize,
    start: &mut f64,
    stop: &mut f64,
) -> Status
    ensures value { result ≡ status_of (per_orbit_opening bytes.now) }
    ensures orbit_after { orbit.new ≡ handed (λ o. o.orbit) (per_orbit_opening bytes.now) orbit.old }
    ensures start_after { start.new ≡ handed (λ o. o.start) (per_orbit_opening bytes.now) start.old }
    ensures stop_after { stop.new ≡ handed (λ o. o.stop) (per_orbit_opening bytes.now) stop.old }
{
    match orbit::per_orbit_opening(bytes) {
        Ok(o) => {
            *orbit = o.orbit;
            *start = o.start;
            *stop = o.stop;
            hand::DONE
        }
        Err(refused) => Status::from(refused),
    }
}

// Where a value stands against its element's limits: 0 below, 1 inside, 2 above.
#[unsafe(no_mangle)]
pub extern "C" fn crest_verdict(element: usize, value: i64, verdict: &mut usize) -> Status
    ensures value { result ≡ status_of (verdict_of Table.Altimeter element value) }
    ensures verdict_after { verdict.new ≡ handed side_number (verdict_of Table.Altimeter element value) verdict.old }
{
    hand::side(verdicts::verdict(Table::Altimeter, element, value), verdict)
}

// A field of a burst: the number of its type, its bits, and of a text its place and how many bytes it
// has.
#[unsafe(no_mangle)]
pub extern "C" fn crest_burst_field(
    file: &[u8],
    start: usize,
    row: usize,
    position: usize,
    kind: &mut usize,
    bits: &mut usize,
    place: &mut usize,
    shown: &mut usize,
) -> Status
    ensures value { result ≡ status_of (mapped in_numbers (field_of file.now start row position)) }
    ensures kind_after { kind.new ≡ handed (λ f. f.kind) (mapped in_numbers (field_of file.now start row position)) kind.old }
    ensures bits_after { bits.new ≡ handed (λ f. f.bits) (mapped in_numbers (field_of file.now start row position)) bits.old }
    ensures place_after { place.new ≡ handed (λ f. f.place) (mapped in_numbers (field_of file.now start row position)) place.old }
    ensures shown_after { shown.new ≡ handed (λ f. f.shown) (mapped in_numbers (field_of file.now start row position)) shown.old }
{
    match burst_fields::field(file, start, row, position) {
        Ok(value) => {
            let f = Stored::from(value);
            *kind = f.kind;
            *bits = f.bits;
            *place = f.place;
            *shown = f.shown;
            hand::DONE
        }
        Err(refused) => Status::from(refused),
    }
}

// Where a field of a burst stands against its limits: 0 below, 1 inside, 2 above.
#[unsafe(no_mangle)]
pub extern "C" fn crest_burst_verdict(
    file: &[u8],
    start: usize,
    row: usize,
    position: usize,
    verdict: &mut usize,
) -> Status
    ensures value { result ≡ status_of (field_verdict file.now start row position) }
    ensures verdict_after { verdict.new ≡ handed side_number (field_verdict file.now start row position) verdict.old }
{
    hand::side(burst_fields::verdict(file, start, row, position), verdict)
}

// The verdict on a beam mask, 1 inside or 2 above, itself; and where it is inside, the number of beams.
#[unsafe(no_mangle)]
pub extern "C" fn crest_beams(mask: usize, beams: &mut usize) -> usize
    ensures value { result ≡ side_number (verdict_in (beams_of mask)) }
    ensures beams_after { beams.new ≡ beams_handed (beams_of mask) beams.old }
{
    match burst_codes::beams(mask) {
        Some(n) => {
            *beams = n;
            1
        }
        None => 2,
    }
}

// The number of a compression mode, itself; 8 for one without a name.
#[unsafe(no_mangle)]
pub extern "C" fn crest_mode(number: usize) -> usize
    ensures { result ≡ mode_handed (numbered number) }
{
    match burst_codes::mode(number) {
        Some(mode) => mode.number(),
        None => 8,
    }
}
