//! The refused records of files, and the messages of collectives.

use cli_tools::{Shape, is_root, write_messages};
use jobs_csv::{Counted, Device, Fault, FaultKind, check_jobs, check_place, check_schedule};
use std::io;
use std::io::Read;
use std::process::Abort;

const HEADER: &[u8] = b"record,line,field,text,fault,wanted\n";

// Expects that this holds.
fn expect_true(rt: &impl Abort, fact: bool) {
    assert!(rt; fact);
}

// Expects that a text is the header of a list, and then these lines.
fn expect_list(rt: &impl Abort, text: &[u8], lines: &[u8]) {
    expect_true(rt, text.starts_with(HEADER));
    expect_true(rt, text.ends_with(lines));
    expect_true(rt, text.len() == HEADER.len() + lines.len());
}

// Expects that a file of jobs, for a machine of dimension 3, has this number of refusals, which
// these lines list.
fn expect_jobs(rt: &(impl AllocGlobal + Abort), input: &[u8], count: u64, lines: &[u8]) {
    let mut writer = Counted::new(Vec::new(rt.alloc()));
    let listed = check_jobs(rt.alloc(), 3, &mut Counted::new(input), &mut writer);
    expect_true(rt, listed == Ok(count));
    expect_list(rt, writer.get_ref().as_slice(), lines);
}

#[test]
fn a_good_file_has_no_line(rt: HostRuntime) {
    let input: &[u8] = b"lane,kind,op,root,items\n0,scan,add,0,1 2 3\n";
    expect_jobs(&rt, input, 0, b"");
}

#[test]
fn each_fault_has_a_line(rt: HostRuntime) {
    // Record 1 has 9 items, record 2 is good, and record 3 follows a blank line.
    let input: &[u8] = b"lane,kind,op,root,items
16,scan,add,0,1
0,scan,add,0,1 2 3

0,scan,add,0,1 02 3
0,broadcast,add,0,1
0,scan,add,x,1
0,scan,add,0
0,scan,add,0,1 2 3 4 5 6 7 8 9
0,scan,add,0,
0,reduce,add,3,1 2 3
0,\"say \"\"it\"\"\",add,0,1
";
    let lines: &[u8] = b"1,2,lane,16,Number,\"a number below 16, with no sign and no leading zero\"
3,5,items,1 02 3,Number,\"numbers below 2^64 with one space between each two, no sign and no leading zero\"
4,6,op,add,Word,\"add, min, max, xor, and, or; for a broadcast -\"
5,7,root,x,Number,\"a number below 2^64, with no sign and no leading zero\"
6,8,,,Fields,\"5 fields: lane,kind,op,root,items\"
7,9,,,Job TooLarge,no more items than the machine has processors
8,10,,,Job Empty,one item at least
9,11,,,Job BadRoot,\"the rank of an item as root; for allreduce, scan and exscan 0\"
10,12,kind,\"say \"\"it\"\"\",Word,\"broadcast, reduce, allreduce, scan or exscan\"
";
    expect_jobs(&rt, input, 9, lines);
}

#[test]
fn a_last_record_with_no_line_end_has_its_line(rt: HostRuntime) {
    let input: &[u8] = b"lane,kind,op,root,items\n\n16,scan,add,0,1";
    let lines: &[u8] =
        b"1,3,lane,16,Number,\"a number below 16, with no sign and no leading zero\"\n";
    expect_jobs(&rt, input, 1, lines);
}

#[test]
fn the_input_of_another_command_is_named(rt: HostRuntime) {
    let input: &[u8] = b"command,name,dim\ntake,a,1\n";
    let lines: &[u8] = b"0,1,,,Fields,another file: this is the input of place\n";
    expect_jobs(&rt, input, 1, lines);
}

#[test]
fn a_wrong_header_has_one_line(rt: HostRuntime) {
    let input: &[u8] = b"lane,kind,op,roots,items\nx\n";
    let lines: &[u8] = b"0,1,root,roots,Word,\"5 fields: lane,kind,op,root,items\"\n";
    expect_jobs(&rt, input, 1, lines);
    expect_jobs(
        &rt,
        b"",
        1,
        b"0,1,,,Fields,\"5 fields: lane,kind,op,root,items\"\n",
    );
}

#[test]
fn a_field_is_shown_as_text(rt: HostRuntime) {
    // Byte 255 is no text, and of 45 letters the first 40 are shown.
    let input: &[u8] = b"lane,kind,op,root,items
0,\xff,add,0,1
0,abcdefghijklmnopqrstuvwxyzabcdefghijklmnopqrs,add,0,1
";
    let lines: &[u8] = b"1,2,kind,\xef\xbf\xbd,Word,\"broadcast, reduce, allreduce, scan or exscan\"
2,3,kind,abcdefghijklmnopqrstuvwxyzabcdefghijklmn,Word,\"broadcast, reduce, allreduce, scan or exscan\"
";
    expect_jobs(&rt, input, 2, lines);
}

#[test]
fn commands_are_checked(rt: HostRuntime) {
    let input: &[u8] = b"command,name,dim\ntake,A,1\ngive,a,1\ntake,a,4\nfree,a,1\ntake,a,3\n";
    let mut writer = Counted::new(Vec::new(rt.alloc()));
    let listed = check_place(rt.alloc(), 3, &mut Counted::new(input), &mut writer);
    expect_true(&rt, listed == Ok(4));
    let lines: &[u8] = b"1,2,name,A,Word,\"1 to 16 bytes, each of them a to z or a digit\"
2,3,command,give,Word,take or free
3,4,dim,4,Number,\"for take a number from 0 to N, for free -\"
4,5,dim,1,Word,\"for take a number from 0 to N, for free -\"
";
    expect_list(&rt, writer.get_ref().as_slice(), lines);
}

#[test]
fn a_schedule_is_checked(rt: HostRuntime) {
    let input: &[u8] = b"station,call,arg\n-,run,-\n0,walk,-\n0,step,101\n0,step,100\n";
    let mut writer = Counted::new(Vec::new(rt.alloc()));
    let listed = check_schedule(rt.alloc(), &mut Counted::new(input), &mut writer);
    expect_true(&rt, listed == Ok(3));
    let lines: &[u8] =
        b"1,2,station,-,Number,\"a number below 2^64, with no sign and no leading zero\"
2,3,call,walk,Word,\"take, release, step, run or retire\"
3,4,arg,101,Number,\"for take a node, for step a number from 1 to 100, for any other -\"
";
    expect_list(&rt, writer.get_ref().as_slice(), lines);
}

// A device that gives a text, and then fails.
#[derive(Drop)]
struct BreaksOff<'a> {
    text: &'a [u8],
}

impl Read for BreaksOff<'_> {
    fn read(&mut self, buf: &mut [u8]) -> io::Result<usize> {
        if self.text.is_empty() {
            return Err(io::Error::from(io::ErrorKind::Other));
        }
        self.text.read(buf)
    }
}

#[test]
fn rows_before_a_failed_read_are_written(rt: HostRuntime) {
    let text: &[u8] = b"command,name,dim\ntake,A,1\n";
    let mut reader = Counted::new(BreaksOff { text });
    let mut writer = Counted::new(Vec::new(rt.alloc()));
    let listed = check_place(rt.alloc(), 3, &mut reader, &mut writer);
    let what = FaultKind::Read;
    expect_true(&rt, listed == Err(Fault { row: 0, what }));
    let lines: &[u8] = b"1,2,name,A,Word,\"1 to 16 bytes, each of them a to z or a digit\"\n";
    expect_list(&rt, writer.get_ref().as_slice(), lines);
}

// Expects that the messages of a collective are these rows.
fn expect_messages(rt: &(impl AllocGlobal + Abort), shape: Shape, k: u32, root: u64, rows: &[u8]) {
    expect_true(rt, (k <= 12) & is_root(shape, k.min(12), root));
    let mut writer = Counted::new(Vec::new(rt.alloc()));
    if (k <= 12) && is_root(shape, k, root) {
        let written = write_messages(rt.alloc(), shape, k, root, &mut writer);
        expect_true(rt, written == Ok(()));
    }
    expect_true(rt, writer.get_ref().as_slice() == rows);
    expect_true(rt, writer.failures() == 0);
}

#[test]
fn messages_are_listed(rt: HostRuntime) {
    let broadcast: &[u8] = b"round,from,to\n0,1,0\n1,1,3\n1,0,2\n";
    expect_messages(&rt, Shape::Broadcast, 2, 1, broadcast);
    let reduce: &[u8] = b"round,from,to\n0,1,0\n0,3,2\n1,0,2\n";
    expect_messages(&rt, Shape::Reduce, 2, 2, reduce);
    let exchange: &[u8] = b"round,from,to\n0,0,1\n0,1,0\n";
    expect_messages(&rt, Shape::AllReduce, 1, 0, exchange);
    expect_messages(&rt, Shape::Scan, 1, 0, exchange);
    expect_messages(&rt, Shape::Broadcast, 0, 0, b"round,from,to\n");
}

#[test]
fn roots_are_ranks(rt: HostRuntime) {
    expect_true(&rt, is_root(Shape::Reduce, 2, 3));
    expect_true(&rt, !is_root(Shape::Broadcast, 2, 4));
    expect_true(&rt, !is_root(Shape::Scan, 2, 1));
}
