// The calls for C, as include/picl.h declares them: memories as pointer and length, registers and answer in small lent arrays of
// words, the paper's number as result. Each is written out: C calls it by its name, with parameters of its own.
#![tactic(auto)]

mod importing;
mod places;
mod recording;

ghost use Rattle.std.specs.Prelude.{length, ◌≡◌};
ghost use Rattle.picl.specs.Calls as call;
ghost use Rattle.checks.specs.Registers.{all_zero};
ghost use Rattle.picl.specs.Calls.{no_allowance, power_up_verdict, format_report, format_after, filter_bits_report};
ghost use Rattle.capi.specs.Crossing.{back, call_crossing};
ghost use Rattle.capi.specs.Crossing.{crossing, reported, reporting, imported, import_crossing, conversion_crossing, record_crossing, name_crossing};
ghost use Rattle.convert.specs.Convert.{conversion};
ghost use Rattle.intel_hex.specs.Export.{export_report, export_text};

use importing::{has_reader_places, put_reader, read_reader};
use picl::Report;
use places::{TOO_SHORT, give, give_line, has_answer, has_places, read_registers, report};
use recording::{has_record_places, put_record};
use status::Status;

#[unsafe(no_mangle)]
pub extern "C" fn picl_format(
    board: &mut [u64],
    lines: u64,
    entries: u64,
    answer: &mut [u64],
) -> u64
    ensures { reported result board.new answer.new
        ≡ reporting (format_report board.old lines entries) board.old (format_after board.old lines entries) answer.old }
{
    if !has_answer(answer) {
        return TOO_SHORT;
    }
    let made = picl::format(board, lines, entries);
    report(answer, made)
}

// It takes no registers and returns them; where it is refused they are all zero.
#[unsafe(no_mangle)]
pub extern "C" fn picl_power_up(
    board: &mut [u64],
    work: &mut [u64],
    registers: &mut [u64],
    allowance: u32,
    answer: &mut [u64],
) -> u64
    ensures { back result board.new work.new registers.new answer.new
        ≡ crossing allowance all_zero (power_up_verdict board.old work.old) board.old work.old registers.old answer.old }
{
    if !has_places(registers, answer) {
        return TOO_SHORT;
    }
    let given = picl::power_up(board, work, allowance);
    give(registers, answer, given)
}

#[unsafe(no_mangle)]
pub extern "C" fn picl_load(
    board: &mut [u64],
    work: &mut [u64],
    registers: &mut [u64],
    address: u64,
    allowance: u32,
    answer: &mut [u64],
) -> u64
    ensures { back result board.new work.new registers.new answer.new
        ≡ call_crossing (call.load address) allowance board.old work.old registers.old answer.old }
{
    if !has_places(registers, answer) {
        return TOO_SHORT;
    }
    let given = picl::load(board, work, read_registers(registers), address, allowance);
    give_line(registers, answer, given)
}

#[unsafe(no_mangle)]
pub extern "C" fn picl_store(
    board: &mut [u64],
    work: &mut [u64],
    registers: &mut [u64],
    address: u64,
    value: u64,
    allowance: u32,
    answer: &mut [u64],
) -> u64
    ensures { back result board.new work.new registers.new answer.new
        ≡ call_crossing (call.store address value) allowance board.old work.old registers.old answer.old }
{
    if !has_places(registers, answer) {
        return TOO_SHORT;
    }
    let given = picl::store(
        board,
        work,
        read_registers(registers),
        address,
        value,
        allowance,
    );
    give_line(registers, answer, given)
}

#[unsafe(no_mangle)]
pub extern "C" fn picl_evict(
    board: &mut [u64],
    work: &mut [u64],
    registers: &mut [u64],
    address: u64,
    allowance: u32,
    answer: &mut [u64],
) -> u64
    ensures { back result board.new work.new registers.new answer.new
        ≡ call_crossing (call.evict address) allowance board.old work.old registers.old answer.old }
{
    if !has_places(registers, answer) {
        return TOO_SHORT;
    }
    let given = picl::evict(board, work, read_registers(registers), address, allowance);
    give_line(registers, answer, given)
}

#[unsafe(no_mangle)]
pub extern "C" fn picl_commit(
    board: &[u64],
    work: &[u64],
    registers: &mut [u64],
    allowance: u32,
    answer: &mut [u64],
) -> u64
    ensures { back result board.now work.now registers.new answer.new
        ≡ call_crossing call.commit allowance board.now work.now registers.old answer.old }
{
    if !has_places(registers, answer) {
        return TOO_SHORT;
    }
    let given = picl::commit(board, work, read_registers(registers), allowance);
    give(registers, answer, given)
}

#[unsafe(no_mangle)]
pub extern "C" fn picl_begin(
    board: &[u64],
    work: &[u64],
    registers: &mut [u64],
    target: u64,
    answer: &mut [u64],
) -> u64
    ensures { back result board.now work.now registers.new answer.new
        ≡ call_crossing (call.begin target) no_allowance board.now work.now registers.old answer.old }
{
    if !has_places(registers, answer) {
        return TOO_SHORT;
    }
    let given = picl::begin(board, work, read_registers(registers), target);
    give(registers, answer, given)
}

#[unsafe(no_mangle)]
pub extern "C" fn picl_scan(
    board: &mut [u64],
    work: &mut [u64],
    registers: &mut [u64],
    allowance: u32,
    answer: &mut [u64],
) -> u64
    ensures { back result board.new work.new registers.new answer.new
        ≡ call_crossing call.scan allowance board.old work.old registers.old answer.old }
{
    if !has_places(registers, answer) {
        return TOO_SHORT;
    }
    let given = picl::scan(board, work, read_registers(registers), allowance);
    give(registers, answer, given)
}

#[unsafe(no_mangle)]
pub extern "C" fn picl_tally(
    board: &[u64],
    work: &[u64],
    registers: &[u64],
    answer: &mut [u64],
) -> u64
    ensures { back result board.now work.now registers.now answer.new
        ≡ call_crossing call.tally no_allowance board.now work.now registers.now answer.old }
{
    if !has_places(registers, answer) {
        return TOO_SHORT;
    }
    let counted = picl::tally(board, work, read_registers(registers));
    report(answer, counted)
}

#[unsafe(no_mangle)]
pub extern "C" fn picl_filter_bits(work: &[u64], answer: &mut [u64]) -> u64
    ensures { reported result work.now answer.new
        ≡ reporting (filter_bits_report work.now) work.now work.now answer.old }
{
    if !has_answer(answer) {
        return TOO_SHORT;
    }
    let counted = picl::filter_bits(work);
    report(answer, counted)
}

#[unsafe(no_mangle)]
pub extern "C" fn picl_hex_out(
    board: &[u64],
    text: &mut [u8],
    record: u64,
    answer: &mut [u64],
) -> u64
    ensures { reported result text.new answer.new
        ≡ reporting (export_report board.now «record» text.old) text.old (export_text board.now «record» text.old) answer.old }
{
    if !has_answer(answer) {
        return TOO_SHORT;
    }
    let made = intel_hex::put_record(board, text, record);
    report(answer, made)
}

#[unsafe(no_mangle)]
pub extern "C" fn picl_hex_in(
    board: &mut [u64],
    reader: &mut [u64],
    text: &[u8],
    answer: &mut [u64],
) -> u64
    ensures { imported result board.new reader.new answer.new
        ≡ import_crossing board.old reader.old text.now answer.old }
{
    if !has_reader_places(reader, answer) {
        return TOO_SHORT;
    }
    let taken = intel_hex::take_record(board, read_reader(reader), text);
    let number = report(answer, taken.report);
    put_reader(reader, number, taken.reader);
    number
}

// The old board is read only.
#[unsafe(no_mangle)]
pub extern "C" fn picl_convert(old: &[u64], board: &mut [u64], answer: &mut [u64]) -> u64
    ensures { reported result board.new answer.new
        ≡ conversion_crossing (conversion old.now (length board.old)) board.old answer.old }
{
    if !has_answer(answer) {
        return TOO_SHORT;
    }
    let made = convert::convert(old, board);
    report(answer, made)
}

#[unsafe(no_mangle)]
pub extern "C" fn picl_trace_write(
    place: &mut [u8],
    kind: u64,
    address: u64,
    value: u64,
    answer: &mut [u64],
) -> u64
    ensures { reported result place.new answer.new ≡ record_crossing place.old answer.old kind address value }
{
    if !has_record_places(place, answer) {
        return TOO_SHORT;
    }
    let status = put_record(place, records::write(kind, address, value));
    // Field by field, here and below, and not by Report::unstored: the laws that close the two calls read the fields.
    report(
        answer,
        Report {
            status,
            value: 0,
            stores: 0,
        },
    )
}

#[unsafe(no_mangle)]
pub extern "C" fn picl_name(text: &mut [u8], number: u64, answer: &mut [u64]) -> u64
    ensures { reported result text.new answer.new ≡ name_crossing text.old answer.old number }
{
    if !has_answer(answer) {
        return TOO_SHORT;
    }
    let letters = status::put_name(text, number);
    if text.len() < letters {
        return TOO_SHORT;
    }
    report(
        answer,
        Report {
            status: Status::Ok,
            value: letters as u64,
            stores: 0,
        },
    )
}
