//! The commands of the program: their words, their options and their help.

/// What stands in the place of a word or after an option.
#[derive(Clone, Copy)]
pub(crate) enum Takes {
    /// Nothing: the option stands there or doesn't.
    Nothing,
    /// A text.
    Text,
    /// One text or more.
    Texts,
    /// A number.
    Number,
    /// The number after `--bound`, or `any`.
    Bound,
    /// The number after `--sectors`, or `base`.
    Size,
}

/// A word of a command, or an option.
#[derive(Clone, Copy)]
pub(crate) struct Item {
    /// The name by which `parsed.rt` reads it.
    pub(crate) id: &'static str,
    /// What an option is called after `--`. A word has none.
    pub(crate) option: Option<&'static str>,
    /// What stands there.
    pub(crate) takes: Takes,
    /// What the help calls that.
    pub(crate) called: &'static [&'static str],
    /// What the help says.
    pub(crate) help: &'static str,
    /// Whether it has to stand there.
    pub(crate) is_required: bool,
    /// Whether what stands there may begin with a hyphen.
    pub(crate) may_have_hyphen: bool,
    /// It has to stand there where none of these does.
    pub(crate) in_place_of: &'static [&'static str],
    /// It excludes each of these.
    pub(crate) excludes: &'static [&'static str],
    /// It needs each of these.
    pub(crate) needs: &'static [&'static str],
}

/// What a command has before its own words and options.
#[derive(Clone, Copy)]
pub(crate) enum Shares {
    /// Nothing.
    Nothing,
    /// The options that say which crash images of a log are meant, and the log.
    OfLog,
    /// What `OfLog` has, and after it the options that say how programs are run.
    OfRun,
}

/// A command of the program.
#[derive(Clone, Copy)]
pub(crate) struct Row {
    /// Its name.
    pub(crate) name: &'static str,
    /// What it is for.
    pub(crate) about: &'static str,
    /// What stands after its help.
    pub(crate) after: &'static str,
    /// What it has before its own words and options.
    pub(crate) shares: Shares,
    /// Its own words and options, after those.
    pub(crate) own: &'static [Item],
}

/// A word that has to stand there.
const WORD: Item = Item {
    id: "",
    option: None,
    takes: Takes::Text,
    called: &[],
    help: "",
    is_required: true,
    may_have_hyphen: false,
    in_place_of: &[],
    excludes: &[],
    needs: &[],
};

/// An option that stands there or doesn't.
const FLAG: Item = Item {
    takes: Takes::Nothing,
    is_required: false,
    ..WORD
};

/// An option that takes a number.
const NUMBER: Item = Item {
    takes: Takes::Number,
    called: &["N"],
    is_required: false,
    ..WORD
};

/// An option that takes a text.
const TEXT: Item = Item {
    takes: Takes::Text,
    called: &["FILE"],
    is_required: false,
    ..WORD
};

/// The size of the device, of a command that can go without.
const SIZE: Item = Item {
    id: "sectors",
    option: Some("sectors"),
    takes: Takes::Size,
    help: "Sectors of the device, 1 to 16384, with --large to\n33554432, or base (not verify): as many as FILE of\n--base has [default: the most]",
    ..NUMBER
};

/// The size of the device.
const SECTORS: Item = Item {
    help: "Sectors of the device, 1 to 16384, with --large to\n33554432, or base (not verify): as many as FILE of\n--base has",
    is_required: true,
    ..SIZE
};

/// Allows large logs and devices.
const LARGE: Item = Item {
    id: "large",
    option: Some("large"),
    help: "Allow a device of 33554432 sectors, 16 GiB, and a log\nof 1 GiB",
    ..FLAG
};

/// Adds flushes to the log.
const FLUSH: Item = Item {
    id: "flush",
    option: Some("flush"),
    called: &["E[,E..]"],
    help: "Go as if a flush stood right before each of these\nentries, up to 64",
    ..TEXT
};

/// What the device held before entry 0.
const BASE: Item = Item {
    id: "base",
    option: Some("base"),
    help: "What the device held before entry 0, from sector 0 on\n[default: zeros]",
    ..TEXT
};

/// The kind of cuts.
const CUTS: Item = Item {
    id: "cuts",
    option: Some("cuts"),
    called: &["WHICH"],
    help: "Cuts: all; flush, before each flush and at the end;\nmark, after each mark [default: all]",
    ..TEXT
};

/// Where the wanted cuts begin.
const FROM: Item = Item {
    id: "from",
    option: Some("from"),
    called: &["K"],
    help: "The first of the cuts [default: 0]",
    ..NUMBER
};

/// Where the wanted cuts end.
const TO: Item = Item {
    id: "to",
    option: Some("to"),
    called: &["K"],
    help: "The last of the cuts [default: the last of the log]",
    ..NUMBER
};

/// How many parts may depart.
const BOUND: Item = Item {
    id: "bound",
    option: Some("bound"),
    takes: Takes::Bound,
    help: "How many sectors, or by write how many writes, may be\nlost or torn, 0 to 3, or any (export: beside --known)\n[default: 1]",
    ..NUMBER
};

/// Whether parts may be torn.
const TEARS: Item = Item {
    id: "tears",
    option: Some("tears"),
    help: "Sectors may also be torn: of the new content only the\nfirst or last eighths arrive",
    ..FLAG
};

/// What departs as one.
const BY: Item = Item {
    id: "by",
    option: Some("by"),
    called: &["WHAT"],
    help: "What is lost or torn as one: sector; write, all sectors\nof a write or discard [default: sector]",
    ..TEXT
};

/// The log.
const LOG: Item = Item {
    id: "file",
    called: &["LOG"],
    help: "A log of writes, as Linux's dm-log-writes target makes\nit",
    ..WORD
};

/// The options that say which crash images of a log are meant, and the log.
pub(crate) static OF_LOG: [Item; 11] = [
    SECTORS, LARGE, FLUSH, BASE, CUTS, FROM, TO, BOUND, TEARS, BY, LOG,
];

/// The limit of steps.
const CHECKED: Item = Item {
    id: "checked",
    option: Some("checked"),
    help: "Ask no verifier, and run each program for at most N\nsteps, 0 to 1000000000",
    ..NUMBER
};

/// Asks for the second kind of acceptance.
const GUARDS: Item = Item {
    id: "guards",
    option: Some("guards"),
    help: "Accept by weaker rules: runs test the places that\naren't proved, and end where one is outside",
    ..FLAG
};

/// Asks for the second kind of acceptance in a run, and excludes a limit of steps.
const GUARDS_OF_RUN: Item = Item {
    excludes: &["checked"],
    ..GUARDS
};

/// The number of threads.
const WORKERS: Item = Item {
    id: "workers",
    option: Some("workers"),
    help: "Threads, 1 to 64 [default: 1]",
    ..NUMBER
};

/// How many verdicts are kept.
const CACHE: Item = Item {
    id: "cache",
    option: Some("cache"),
    help: "Verdicts to keep, up to 65536 [default: 0]",
    ..NUMBER
};

/// Says how far a run is.
const PROGRESS: Item = Item {
    id: "progress",
    option: Some("progress"),
    help: "Say on standard error how many images are judged",
    ..FLAG
};

/// The options that say how programs are run.
pub(crate) static OF_RUN: [Item; 5] = [WORKERS, CACHE, CHECKED, GUARDS_OF_RUN, PROGRESS];

/// The programs of a run.
const PROGRAMS: Item = Item {
    id: "programs",
    takes: Takes::Texts,
    called: &["PROGRAM"],
    help: "Checkers, one to eight: BPF programs that answer 0 for\na good image",
    ..WORD
};

/// How many parts of any number of losses may be torn.
const TORN: Item = Item {
    id: "torn",
    option: Some("torn"),
    help: "With --bound any and --tears, how many of them may be\ntorn, 1 to 3 [default: 1]",
    ..NUMBER
};

/// How many parts of any number of losses may depart.
const AT_MOST: Item = Item {
    id: "at-most",
    option: Some("at-most"),
    help: "With --bound any, how many of them may be lost or torn,\n1 to 64 [default: any number]",
    ..NUMBER
};

/// Ends with the first failing image.
const FIRST: Item = Item {
    id: "first",
    option: Some("first"),
    help: "Report the first failing image, or with --bound any\ncase, alone",
    ..FLAG
};

/// Says of what the report is.
const INPUTS: Item = Item {
    id: "inputs",
    option: Some("inputs"),
    help: "Say in the report's second line of which log, options\nand number of programs it is, so that --report takes it\nwith these alone",
    excludes: &["torn", "at-most", "first", "images"],
    ..FLAG
};

/// What stands beside no records: what says how programs are run, and what asks for other answers.
const BESIDE_NO_RECORDS: &[&str] = &[
    "workers", "cache", "checked", "guards", "progress", "first", "inputs", "images",
];

/// Records of a program in place of programs.
const KNOWN: Item = Item {
    id: "known",
    option: Some("known"),
    help: "With --bound any, judge nothing: tell what these\nrecords tell, as crashbpf-each writes them",
    excludes: BESIDE_NO_RECORDS,
    ..TEXT
};

/// Ends the search of a cut at its first failing case.
const STOP_AT_FAILING: Item = Item {
    id: "stop-at-failing",
    option: Some("stop-at-failing"),
    help: "With --known, end the search of each cut at its first\nfailing case",
    excludes: &["programs"],
    needs: &["known"],
    ..FLAG
};

/// Ends the search of a cut after some cases.
const CASES: Item = Item {
    id: "cases",
    option: Some("cases"),
    help: "With --known, end the search of each cut after N cases,\n1 to 16777216 [default: all]",
    excludes: &["programs"],
    needs: &["known"],
    ..NUMBER
};

/// The programs of a run, where no records are given in their place.
const PROGRAMS_OR_KNOWN: Item = Item {
    is_required: false,
    in_place_of: &["known"],
    excludes: &["known"],
    ..PROGRAMS
};

/// The images that are judged.
const SOME_IMAGES: Item = Item {
    id: "images",
    option: Some("images"),
    called: &["A..B"],
    help: "Judge the images from A to below B alone, and print the\ntext of a part, for 'join'",
    ..TEXT
};

/// A report in place of programs.
const REPORT: Item = Item {
    id: "report",
    option: Some("report"),
    help: "Judge nothing: tell it of this report of the log with\nthe same options, as crashbpf-each or 'explore' prints\nit",
    excludes: &["workers", "cache", "checked", "guards", "progress"],
    ..TEXT
};

/// The programs of a run, where no report is given in their place.
const PROGRAMS_OR_REPORT: Item = Item {
    is_required: false,
    in_place_of: &["report"],
    excludes: &["report"],
    ..PROGRAMS
};

/// How many parts may be torn, which excludes a report.
const TORN_OF_RUN: Item = Item {
    excludes: &["report"],
    ..TORN
};

/// How many parts may depart, which excludes a report.
const AT_MOST_OF_RUN: Item = Item {
    excludes: &["report"],
    ..AT_MOST
};

/// What a command takes that tells of a run or of a report.
const TELLING: [Item; 4] = [REPORT, PROGRAMS_OR_REPORT, TORN_OF_RUN, AT_MOST_OF_RUN];

/// Allows a run with as many images as can be counted.
const WIDE: Item = Item {
    id: "wide",
    option: Some("images"),
    help: "Allow fewer than 2^63 images, as a run has that is laid\nout in parts",
    ..FLAG
};

/// How many parts a run is laid out in.
const PARTS: Item = Item {
    id: "parts",
    option: Some("parts"),
    help: "Print also how the run is laid out in N parts, for\n'explore --images', or with --bound any for --from and\n--to",
    ..NUMBER
};

/// The images that are written.
const WRITTEN_IMAGES: Item = Item {
    help: "Write the images from A to below B alone",
    ..SOME_IMAGES
};

/// Records of a program, by which the open cases are written.
const KNOWN_OF_EXPORT: Item = Item {
    help: "With --bound any, write the images that these records\nleave open, as crashbpf-each writes them",
    excludes: &["images"],
    ..KNOWN
};

/// How many parts may be torn, beside records.
const TORN_OF_EXPORT: Item = Item {
    excludes: &["images"],
    needs: &["known"],
    ..TORN
};

/// How many parts may depart, beside records.
const AT_MOST_OF_EXPORT: Item = Item {
    excludes: &["images"],
    needs: &["known"],
    ..AT_MOST
};

/// Ends the search of a cut at its first failing case, beside no range of images.
const STOP_OF_EXPORT: Item = Item {
    excludes: &["images"],
    ..STOP_AT_FAILING
};

/// Ends the search of a cut after some cases, beside no range of images.
const CASES_OF_EXPORT: Item = Item {
    excludes: &["images"],
    ..CASES
};

/// The cut of an image.
const CUT: Item = Item {
    id: "cut",
    option: Some("cut"),
    called: &["K"],
    help: "The cut of the image, in place of its number",
    needs: &["choice"],
    ..NUMBER
};

/// The choice of an image.
const CHOICE: Item = Item {
    id: "choice",
    option: Some("choice"),
    called: &["CHOICE"],
    help: "What was lost or torn, as a line of the report says it:\n17.0:drop,18.1:head3, or -",
    may_have_hyphen: true,
    needs: &["cut"],
    ..TEXT
};

/// The number of an image, where it isn't named by its cut.
const IMAGE_NUMBER: Item = Item {
    id: "number",
    takes: Takes::Number,
    called: &["N"],
    help: "The number of the image, from 0",
    is_required: false,
    in_place_of: &["cut"],
    excludes: &["cut"],
    ..WORD
};

/// What a command on one crash image takes.
const NAMED: [Item; 4] = [CUT, CHOICE, WIDE, IMAGE_NUMBER];

/// A raw log.
const RAW: Item = Item {
    id: "file",
    called: &["RAW"],
    help: "A log, or a log device, as Linux's dm-log-writes target\nwrites it",
    ..WORD
};

/// A program.
const PROGRAM: Item = Item {
    id: "file",
    called: &["PROGRAM"],
    help: "A BPF program, as bytes",
    ..WORD
};

/// An assembly text.
const SOURCE: Item = Item {
    id: "file",
    called: &["SOURCE"],
    help: "An assembly text",
    ..WORD
};

/// Lists the guarded slots.
const LIST: Item = Item {
    id: "list",
    option: Some("list"),
    help: "List each guarded slot, at which runs test a place,\nwith its instruction",
    needs: &["guards"],
    ..FLAG
};

/// How many flushes a program is told of.
const EPOCH: Item = Item {
    id: "epoch",
    option: Some("epoch"),
    help: "How many flushes the program is told of, 0 to 65536\n[default: 0]",
    ..NUMBER
};

/// How many marks a program is told of.
const MARKS: Item = Item {
    id: "marks",
    option: Some("marks"),
    help: "How many marks the program is told of, 0 to 65536\n[default: 0]",
    ..NUMBER
};

/// How many steps are printed.
const TRACE: Item = Item {
    id: "trace",
    option: Some("trace"),
    help: "Print the last N steps, each with the registers that it\nchanged [default: 0]",
    ..NUMBER
};

/// The lines of C of a program.
const LINES: Item = Item {
    id: "lines",
    option: Some("lines"),
    help: "Name the lines of C by FILE, which crashbpf-cc writes\nbeside the program",
    ..TEXT
};

/// The image on which a program is run.
const IMAGE: Item = Item {
    id: "image",
    called: &["IMAGE"],
    help: "The bytes of a device: 1 to 16384 sectors of 512, with\n--large to 33554432",
    ..WORD
};

/// Prints the slots of a listing.
const SLOTS: Item = Item {
    id: "slots",
    option: Some("slots"),
    help: "Begin each line with the slot of its instruction",
    ..FLAG
};

/// Takes some parts in a row.
const PART: Item = Item {
    id: "part",
    option: Some("part"),
    help: "Take some parts in a row too, and print the text of the\npart that they are",
    ..FLAG
};

/// The texts of parts.
const PART_TEXTS: Item = Item {
    id: "texts",
    takes: Takes::Texts,
    called: &["PART"],
    help: "Texts of parts of one run, 1 to 4096, in any order",
    ..WORD
};

/// The command `explore`.
pub(crate) static EXPLORE_ROW: Row = Row {
    name: "explore",
    about: "Reports the crash images on which a checker doesn't answer 0",
    after: "Each line of the report names an image, its cut, a program, what that answered,
and the sectors that were lost or torn: 'choice 8.0:head7' is sector 0 of entry
8, of which the first seven eighths arrived; 'choice 8.0:tail1' is the same
sector, of which the last eighth arrived. With --by write 'choice 8:drop' is all
of entry 8.

With --bound any no number of losses is left out. Each line then names a case:
images of a cut that the program can't tell apart, of which one is judged for
all. With --known no program is run: the records say how yours ended on some
images, and at which sectors it looked. A case that no record tells is open.

Examples: crashbpf explore disk.log check.bpf --sectors 64 --bound 2 --tears
          crashbpf explore disk.log check.bpf --base base.img --sectors base
          crashbpf explore disk.log check.bpf --sectors 64 --bound any

Exit status: 0 where no image fails, 1 where one does, 2 for a refusal; with
--known 3 where none fails and the text isn't complete.",
    shares: Shares::OfRun,
    own: &[
        TORN,
        AT_MOST,
        KNOWN,
        STOP_AT_FAILING,
        CASES,
        FIRST,
        INPUTS,
        SOME_IMAGES,
        PROGRAMS_OR_KNOWN,
    ],
};

/// The command `why`.
pub(crate) static WHY_ROW: Row = Row {
    name: "why",
    about: "Tells which losses make a checker fail, cut by cut",
    after: "The flushes that are missing, and for each program the cuts at which it fails.
The failing images of a cut stand in groups: in the images of a group the same
parts are lost and the same parts are torn.

With --bound any no number of losses is left out. Each line then says why a case
fails: what was lost while something later was kept, or an image against which
no flush helps.

Examples: crashbpf why disk.log check.bpf --sectors 64 --bound 2 --tears
          crashbpf why disk.log check.bpf --sectors 64 --bound any

Exit status: 0 where no image fails, 1 where one does, 2 for a refusal.",
    shares: Shares::OfRun,
    own: &TELLING,
};

/// The command `cure`.
pub(crate) static CURE_ROW: Row = Row {
    name: "cure",
    about: "Tells where a flush is missing, and what fails with these flushes",
    after: "Goes as if a flush stood at each place that is picked for the failing images,
runs again, and so on, until no flush helps against a failing image. Each line
'round N flush before E from A failing G' is a place: right before entry E, or
before an entry from A on. Where no flush helps, the order of the writes is
wrong, or a write that may arrive in part is taken for whole.

Example: crashbpf cure disk.log check.bpf --sectors 64 --by write --bound any

Exit status: 0 where no image of the log itself fails, 1 where one does, 2 for a
refusal.",
    shares: Shares::OfRun,
    own: &TELLING,
};

/// The command `page`.
pub(crate) static PAGE_ROW: Row = Row {
    name: "page",
    about: "Shows the log and the failing cuts as a page for a browser",
    after: "One HTML file, for any browser, which fetches nothing: the log as a row of
entries, the cuts between them coloured by the share of their images that fail,
and after a click on a cut its first eight smallest failing choices, each as
'show' tells its image. With --bound any it has the failing cases, each as a row
of the parts at risk.

Example: crashbpf page disk.log check.bpf --sectors 64 --bound 2 > page.html

Exit status: 0 where no image fails, 1 where one does, 2 for a refusal.",
    shares: Shares::OfRun,
    own: &TELLING,
};

/// The command `images`.
pub(crate) static IMAGES_ROW: Row = Row {
    name: "images",
    about: "Tells how many crash images each cut of a log has",
    after: "A cut with v sectors on their way, or with --by write v writes, has the sum over
i up to the bound of C(v, i) * m^i images, where m is 15 with --tears and else
1. With --bound any it tells of each cut at which cases are looked for how many
parts are at risk there; how many cases there are hangs on the checkers.

Example: crashbpf images disk.log --sectors 64 --tears

Exit status: 0, or 2 for a refusal.",
    shares: Shares::OfLog,
    own: &[WIDE, AT_MOST, PARTS],
};

/// The command `export`.
pub(crate) static EXPORT_ROW: Row = Row {
    name: "export",
    about: "Writes all crash images, each by the sectors in which it differs",
    after: "For each image a line, such as 'image 13 cut 4 epoch 0 marks 1 choice 2.0:drop
new 3', and after it 3 records, each the number of a sector (8 bytes, lowest
first) and its 512 bytes: what differs from the last new image, or for the first
from what the device held. An image with the same bytes and as many marks as an
earlier one, say 13, has 'same 13' in place of 'new 3', and no records.

With --bound any and --known it writes the images that are to be judged next,
one for each case that no record tells, numbered in the order of the search.

Example: crashbpf export disk.log --sectors 64 > disk.images

Exit status: 0, or 2 for a refusal.",
    shares: Shares::OfLog,
    own: &[
        WRITTEN_IMAGES,
        TORN_OF_EXPORT,
        AT_MOST_OF_EXPORT,
        KNOWN_OF_EXPORT,
        STOP_OF_EXPORT,
        CASES_OF_EXPORT,
    ],
};

/// The command `image`.
pub(crate) static IMAGE_ROW: Row = Row {
    name: "image",
    about: "Writes the bytes of one crash image, sector after sector",
    after: "The number is that of a line of the report, with the same options. With --cut
and --choice, as a line of the report has them, it can be left out.

With --bound any a choice names any number of sectors, as a line of 'explore
--bound any' has it. It takes --cut and --choice alone.

Examples: crashbpf image disk.log 202 --sectors 64 --tears > bad.img
          crashbpf image disk.log --cut 9 --choice 7.0:drop --sectors 64 > img

Exit status: 0, or 2 for a refusal.",
    shares: Shares::OfLog,
    own: &NAMED,
};

/// The command `show`.
pub(crate) static SHOW_ROW: Row = Row {
    name: "show",
    about: "Tells one crash image in words: what was lost, and what differs",
    after: "The image is named as for 'image'. Rows of bytes after '<' are those of the
image of the same cut where nothing is lost, those after '>' of this image; of
each sector the first rows that differ are shown. With --bound any it is also
told which write is in flight.

Example: crashbpf show disk.log --cut 19 --choice 17.0:drop --sectors 64

Exit status: 0, or 2 for a refusal.",
    shares: Shares::OfLog,
    own: &NAMED,
};

/// The command `log`.
pub(crate) static LOG_ROW: Row = Row {
    name: "log",
    about: "Prints the entries of a log",
    after: "An entry a line, with the number that the report names: sector j of 'sector S
count N' is unit j, which is S + j on the device. Bytes of a mark's text that
aren't printed are shown as '\\x{7f}'.

Example: crashbpf log disk.log

Exit status: 0, or 2 for a refusal: 1 to 10 at the entry.",
    shares: Shares::Nothing,
    own: &[SIZE, LARGE, FLUSH, BASE, LOG],
};

/// The command `import`.
pub(crate) static IMPORT_ROW: Row = Row {
    name: "import",
    about: "Makes a log of one with sectors of 512 or 4,096 bytes",
    after: "RAW is a log, or a whole log device, with sectors of 512 or 4,096 bytes; what
its entries don't need isn't read. Each sector of 4,096 bytes becomes eight of
512, with the same bytes at the same places of the device.

Example: crashbpf import /dev/vdb > disk.log

Exit status: 0, or 2 for a refusal: 1 to 10 at the entry.",
    shares: Shares::Nothing,
    own: &[RAW, LARGE],
};

/// The command `verify`.
pub(crate) static VERIFY_ROW: Row = Row {
    name: "verify",
    about: "Says with which budget of steps the verifier accepts a program",
    after: "Prints 'accepted budget N': on each image of a device of that size a run takes
at most N steps. With --guards it prints 'accepted budget N guards G': at G
slots a run tests the place of a load, a store, a copy or a checksum. Where that
is outside of what the program may touch, the run ends as 'stray at slot S'.

Examples: crashbpf verify check.bpf --sectors 64
          crashbpf verify check.bpf --sectors 64 --guards --list

Exit status: 0 where the program is accepted, 2 for a refusal: 20 to 26 for its
bytes, 40 to 60 for the rule that it breaks, each at its slot.",
    shares: Shares::Nothing,
    own: &[PROGRAM, SECTORS, LARGE, GUARDS, LIST],
};

/// The command `check`.
pub(crate) static CHECK_ROW: Row = Row {
    name: "check",
    about: "Runs a program on one image, and says what it answers",
    after: "The device has as many sectors as the image. The last line is what the program
ended in: its answer and the codes that it reported, or with --checked a fault
and its slot. With --trace each of the last steps has a line before that: its
slot, its instruction and the registers that it changed. With --guards the
program runs as 'explore --guards' runs it: it may end as 'stray at slot S', and
the line of that step says at which place and by which register. With --lines
its line of C follows each slot that has one, as ' # check.c:41'.

Examples: crashbpf check check.bpf good.img --trace 20
          crashbpf image disk.log 202 --sectors 64 --tears > bad.img
          crashbpf check check.bpf bad.img --epoch 3 --marks 1
          crashbpf check check.bpf bad.img --guards --trace 9 --lines c.lines

Exit status: 0 where the answer is 0, 1 where it isn't or there is none, 2 for a
refusal.",
    shares: Shares::Nothing,
    own: &[
        PROGRAM,
        LARGE,
        EPOCH,
        MARKS,
        CHECKED,
        GUARDS_OF_RUN,
        TRACE,
        LINES,
        IMAGE,
    ],
};

/// The command `asm`.
pub(crate) static ASM_ROW: Row = Row {
    name: "asm",
    about: "Writes the program that an assembly text says",
    after: "Example: crashbpf asm check.s > check.bpf

Exit status: 0, or 2 for a refusal: 30 to 35 at the line.",
    shares: Shares::Nothing,
    own: &[SOURCE],
};

/// The command `list`.
pub(crate) static LIST_ROW: Row = Row {
    name: "list",
    about: "Prints the listing of a program, which assembles to it again",
    after: "Example: crashbpf list check.bpf

Exit status: 0, or 2 for a refusal: 20 to 26 at the slot.",
    shares: Shares::Nothing,
    own: &[PROGRAM, SLOTS],
};

/// The command `join`.
pub(crate) static JOIN_ROW: Row = Row {
    name: "join",
    about: "Joins what 'explore --images' printed of parts of a run",
    after: "The parts have each image of the run once. With --part they may be some in a
row: the answer is then the text of a part again, which can be joined with
others.

With --bound any parts are ranges of cuts, by --from and --to, as 'images
--bound any --parts' prints them. They have each cut once, and come to the text
of the run of all cuts.

Example: crashbpf explore disk.log check.bpf --sectors 64 --images 0..60 > a
         crashbpf explore disk.log check.bpf --sectors 64 --images 60..99 > b
         crashbpf join a b

Exit status: 0 where no image fails, 1 where one does, 2 for a refusal: 12 or 61
to 66 at the file.",
    shares: Shares::Nothing,
    own: &[PART, PART_TEXTS],
};
