// Options: sizes and times with units, sizes of flash, and options out of a file.
use crate::commands::{APART, TRACE, is_answered, words_of, write_the_same};
use rw_command::{Out, Source, SourceFault, Stderr, command_at};
use std::alloc::{AllocError, Global};
use std::random::RandomSource;
use std::sync::Wait;
use std::thread::Threads;
use std::time::Clock;

/// Command lines with units, each with one that says the same without.
const UNITS: [(&str, &str); 9] = [
    (
        "ripqwarp serial - --policy lru --block 1K",
        "ripqwarp serial - --policy lru --block 1024",
    ),
    (
        "ripqwarp sweep - --policy lru --block 2MiB --edge-flash 4M --origin-flash 1G",
        "ripqwarp sweep - --policy lru --block 2097152 --edge-blocks 2 --origin-blocks 512",
    ),
    (
        "ripqwarp warp - --policy lru --block 10 --edge-flash 30",
        "ripqwarp serial - --policy lru --block 10 --edge-blocks 3",
    ),
    (
        "ripqwarp serial - --ticks-a-second 1000 --every 50ms --block 10",
        "ripqwarp serial - --every 50 --block 10",
    ),
    (
        "ripqwarp serial - --ticks-a-second 3 --warm-up 20s",
        "ripqwarp serial - --warm-up 60",
    ),
    (
        "ripqwarp sweep - --ticks-a-second 1 --up 2s --down 1m --back 1h",
        "ripqwarp sweep - --ticks-a-second 1 --up 2 --down 60 --back 3600",
    ),
    (
        "ripqwarp sweep - --block 1K..4Kx2 --edge-blocks 8",
        "ripqwarp sweep - --block 1024,2048,4096 --edge-blocks 8",
    ),
    (
        "ripqwarp sweep - --block 1K --edge-flash 2K,4K --origin-flash 8K..32Kx2",
        "ripqwarp sweep - --block 1024 --edge-blocks 2,4 --origin-blocks 8..32x2",
    ),
    (
        "ripqwarp sweep - --policy lru --ticks-a-second 2000 --every 25ms",
        "ripqwarp sweep - --policy lru --every 50",
    ),
];

#[test]
fn a_unit_says_a_number(rt: HostRuntime) {
    let alloc = rt.alloc();
    for (with, without) in &UNITS {
        assert!(rt;
            write_the_same(&rt, alloc, (*with, APART), (*without, APART)),
            "for {with}"
        );
    }
}

/// Command lines with a value that is none, each with what is told of it.
const NO_VALUES: [(&str, &str); 11] = [
    (
        "ripqwarp serial nothing --block 1X",
        "error: invalid value '1X' for '--block': 1 to 268435456 bytes, with K, M, G or T for powers of 1024\n",
    ),
    (
        "ripqwarp serial nothing --block 257M",
        "error: invalid value '257M' for '--block': 1 to 268435456 bytes, with K, M, G or T for powers of 1024\n",
    ),
    (
        "ripqwarp serial nothing --edge-flash 2500000",
        "error: invalid value '2500000' for '--edge-flash': a multiple of a block, which has 1048576 bytes; the nearest are 2097152 and 3145728\n",
    ),
    (
        "ripqwarp serial nothing --block 10 --origin-flash 655370",
        "error: invalid value '655370' for '--origin-flash': at most 65536 blocks of 10 bytes; see --block\n",
    ),
    (
        "ripqwarp serial nothing --edge-flash 1M --edge-blocks 1",
        "error: --edge-flash: not with --edge-blocks\n",
    ),
    (
        "ripqwarp sweep nothing --edge-flash 1M --block 1K,2K",
        "error: --edge-flash: only with one value of --block\n",
    ),
    (
        "ripqwarp serial nothing --every 5m",
        "error: invalid value '5m' for '--every': 1 to 1099511627776 ticks; with --ticks-a-second, also a time with ms, s, m, h or d\n",
    ),
    (
        "ripqwarp serial nothing --ticks-a-second 3 --every 1ms",
        "error: invalid value '1ms' for '--every': a whole number of ticks from 1 to 1099511627776, or a time with ms, s, m, h or d\n",
    ),
    (
        "ripqwarp warp nothing --up 0",
        "error: invalid value '0' for '--up': 1 to 1048576 ticks; with --ticks-a-second, also a time with ms, s, m, h or d\n",
    ),
    (
        "ripqwarp journal nothing --schedule x --block 0",
        "error: invalid value '0' for '--block': 1 to 268435456 bytes, with K, M, G or T for powers of 1024\n",
    ),
    (
        "ripqwarp import nothing --delimiter ;;",
        "error: invalid value ';;' for '--delimiter': one ASCII character, or tab\n",
    ),
];

// They are told before a file is read.
#[test]
fn a_value_that_is_none_is_told(rt: HostRuntime) {
    let alloc = rt.alloc();
    for (words, told) in &NO_VALUES {
        assert!(rt;
            is_answered(&rt, alloc, words, TRACE, (2, 0), told),
            "for {words}"
        );
    }
}

/// Some files by their names.
#[derive(Drop)]
struct Shelf {
    files: &'static [(&'static str, &'static [u8])],
}

impl Shelf {
    /// The file of this name.
    fn find(&self, path: &str) -> Result<&'static [u8], SourceFault> {
        for (name, bytes) in self.files {
            if *name == path {
                return Ok(bytes);
            }
        }
        Err(SourceFault::Read)
    }
}

impl Source for Shelf {
    type Reader = &'static [u8];

    fn open(&mut self, path: &str) -> Result<&'static [u8], SourceFault> {
        self.find(path)
    }

    fn bytes(&mut self, alloc: Global, path: &str) -> Result<Vec<u8>, SourceFault> {
        Vec::from_slice(alloc, self.find(path)?).map_err(|_| SourceFault::Memory)
    }

    fn why_not(&mut self, path: &str) -> Option<&'static str> {
        match self.find(path) {
            Ok(_) => None,
            Err(_) => Some("not on the shelf"),
        }
    }
}

/// The files that the tests read.
const FILES: [(&str, &[u8]); 9] = [
    ("trace", APART),
    (
        "study",
        b"# A study.\n\n--policy=lru\n  --block\n10\n--edge-flash=30\n--quiet\ntrace\n",
    ),
    ("nested", b"--options=study\n"),
    (
        "late",
        b"time,edge,object,size\n5,0,7,4\n\"6\n\",3,8,4\n7,3,8,4\n",
    ),
    ("far", b"time,edge,object,size\n5,1,7,4\n6,3,8,4\n7,2,8,4\n"),
    ("wide", b"time,edge,object,size\n5,1,7,4\n6,300,8,4\n"),
    ("packed", b"\x1f\x8b\x08\x00\x00"),
    ("other", b"a;b\n1;2\n"),
    ("empty", b""),
];

/// What a command line writes and tells on a terminal, with its exit status.
fn on_terminal<R: Threads + Wait + Clock + RandomSource + Sync>(
    rt: &R,
    alloc: Global,
    text: &str,
) -> Result<(u8, Vec<u8>, Vec<u8>), AllocError> {
    let words = words_of(alloc, text)?;
    let mut out = Out::new(Vec::new(alloc));
    let mut err = Stderr {
        writer: Vec::new(alloc),
        is_terminal: true,
    };
    let source = &mut Shelf { files: &FILES };
    let status = command_at(rt, alloc, words, source, &mut out, &mut err);
    let Stderr { writer, .. } = err;
    Ok((status, out.into_inner(), writer))
}

/// Command lines with a file of options, each with one that says the same without.
const STUDIES: [(&str, &str); 4] = [
    (
        "ripqwarp serial --options study --format csv",
        "ripqwarp serial --policy lru --block 10 --edge-blocks 3 --quiet --format csv trace",
    ),
    (
        "ripqwarp sweep --block=20 --options=study --edge-flash 40",
        "ripqwarp sweep --policy lru --block 20 --edge-blocks 2 --quiet trace",
    ),
    (
        "ripqwarp serial --quiet --policy off --options study --every 50",
        "ripqwarp serial --policy off --block 10 --edge-blocks 3 --quiet --every 50 trace",
    ),
    (
        "ripqwarp sweep --options study --policy lru,slru2",
        "ripqwarp sweep --policy lru,slru2 --block 10 --edge-blocks 3 --quiet trace",
    ),
];

#[test]
fn a_file_says_options(rt: HostRuntime) -> Result<(), AllocError> {
    let alloc = rt.alloc();
    for (with, without) in &STUDIES {
        let (status, written, told) = on_terminal(&rt, alloc, with)?;
        let (expected_status, expected, expected_told) = on_terminal(&rt, alloc, without)?;
        assert!(rt; status == 0 && expected_status == 0, "for {with}");
        assert!(rt; written.as_slice() == expected.as_slice(), "for {with}");
        assert!(rt; told.as_slice() == expected_told.as_slice(), "for {with}");
    }
    Ok(())
}

/// Command lines that ask for quiet, each with what is told on a terminal.
const QUIET: [(&str, &str); 5] = [
    ("ripqwarp serial --quiet --policy off --stream trace", ""),
    (
        "ripqwarp warp --quiet --policy off --workers 1 trace",
        "traffic rounds 1 executed 6 undone 0 ring 0 kept 0\n",
    ),
    (
        "ripqwarp import --quiet trace",
        "import kept 2 clamped 0 left out: length 0 time 0 edge 0 object 0 size 0 kind 0\n",
    ),
    ("ripqwarp sweep --quiet --policy off trace", ""),
    (
        "ripqwarp size --quiet --policy off --target 0 --edge-blocks 1..2 trace",
        "",
    ),
];

#[test]
fn quiet_shows_no_progress(rt: HostRuntime) -> Result<(), AllocError> {
    let alloc = rt.alloc();
    for (words, told) in &QUIET {
        let (status, _, said) = on_terminal(&rt, alloc, words)?;
        assert!(rt;
            status == 0 && said.as_slice() == told.as_bytes(),
            "for {words}"
        );
    }
    Ok(())
}

/// Command lines that fail, each with its exit status and what is told of it on a terminal.
const HINTS: [(&str, u8, &str); 11] = [
    (
        "ripqwarp serial --quiet nowhere",
        4,
        "file: cannot read\nhint: nowhere: not on the shelf\n",
    ),
    (
        "ripqwarp serial --quiet --options nowhere",
        4,
        "file: cannot read\n",
    ),
    (
        "ripqwarp serial --quiet --options nested",
        2,
        "error: invalid value 'nested' for '--options': a file without the option --options\n",
    ),
    (
        "ripqwarp serial --quiet late",
        3,
        "trace: row 1 column 0: number\nhint: late line 3: `6?` is not a number of 1 to 20 digits, below 2^64\n",
    ),
    (
        "ripqwarp serial --quiet far",
        3,
        "trace: row 0: edge\nhint: far line 2: edge 1; the trace has edges up to 3: --edges 4\n",
    ),
    (
        "ripqwarp serial --quiet wide",
        3,
        "trace: row 0: edge\nhint: wide line 2: edge 1; the trace has an edge 300, and --edges is at most 256\n",
    ),
    (
        "ripqwarp warp --quiet packed",
        3,
        "trace: header\nhint: packed is gzip; pipe it through gzip -dc\n",
    ),
    (
        "ripqwarp serial --quiet other",
        3,
        "trace: header\nhint: other begins with `a;b`; the header should be time,edge,object,size or time,edge,object,size,kind\n",
    ),
    (
        "ripqwarp serial --quiet empty",
        3,
        "trace: header\nhint: empty begins with ``; the header should be time,edge,object,size or time,edge,object,size,kind\n",
    ),
    (
        "ripqwarp plot other",
        3,
        "sweep: header\nhint: other begins with `a;b`; the header should be that of a table of sweep, or of serial or sweep with --every\n",
    ),
    (
        "ripqwarp join other",
        3,
        "join: file 0: header\nhint: other begins with `a;b`; the header should be that of a part, as sweep --part writes it\n",
    ),
];

#[test]
fn a_fault_has_a_hint_on_a_terminal(rt: HostRuntime) -> Result<(), AllocError> {
    let alloc = rt.alloc();
    for (words, status, told) in &HINTS {
        let (ended, written, said) = on_terminal(&rt, alloc, words)?;
        assert!(rt;
            ended == *status && written.is_empty() && said.as_slice() == told.as_bytes(),
            "for {words}"
        );
    }
    Ok(())
}

/// The kinds of texts that go with an installed program, each with what it begins with.
const GENERATED: [(&str, &str); 4] = [
    ("ripqwarp generate man", ".TH RIPQWARP 1 "),
    ("ripqwarp generate bash", "_ripqwarp() {\n"),
    ("ripqwarp generate zsh", "#compdef ripqwarp\n"),
    (
        "ripqwarp generate fish",
        "complete -c ripqwarp -n __fish_use_subcommand -f -a serial -d ",
    ),
];

#[test]
fn the_program_has_a_manual_and_completions(rt: HostRuntime) -> Result<(), AllocError> {
    let alloc = rt.alloc();
    for (words, begins) in &GENERATED {
        let (status, written, told) = on_terminal(&rt, alloc, words)?;
        assert!(rt;
            status == 0 && told.is_empty() && written.as_slice().starts_with(begins.as_bytes()),
            "for {words}"
        );
    }
    Ok(())
}
