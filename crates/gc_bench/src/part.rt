//! The names of the parts that are timed.

/// A part of the program's work.
#[derive(Clone, Copy)]
pub enum Part {
    /// Reading the circuit from bytes.
    Read,
    /// Plain evaluation.
    Plain,
    /// The hashes of garbling alone, four for each AND gate, four at once.
    Lanes,
    /// The same number of hashes, eight at once.
    EightLanes,
    /// Garbling on one thread.
    Garble,
    /// Two garblings side by side on one thread.
    GarbleTwo,
    /// Garbling with this many workers.
    GarbleBy(u32),
    /// Evaluation of a job on one thread.
    Job,
    /// Evaluation of four jobs side by side on one thread.
    JobFour,
    /// Evaluation of a job with this many workers.
    JobBy(u32),
    /// Evaluation of a list of jobs on one thread, one after another.
    List,
    /// Evaluation of a list of jobs with this many workers.
    ListBy(u32),
    /// The digest of the circuit.
    Digest,
    /// SHA-256 over the circuit's canonical text, as it lies in memory.
    Sha,
    /// Writing the garbled file to a sink that takes all. The digest of the circuit is part of it.
    Write,
    /// Reading the garbled file whole.
    ReadFile,
    /// Reading the garbled file in pieces of 4,096 bytes.
    Pieces,
    /// SHA-256 over the bytes of the garbled file.
    FileSha,
    /// The same of eight garbled files side by side.
    EightSha,
    /// The same of one by the kit's `sha2`.
    KitSha,
}

/// All parts, each with its name on the command line.
static PARTS: [(&str, Part); 25] = [
    ("read", Part::Read),
    ("plain", Part::Plain),
    ("lanes", Part::Lanes),
    ("eight_lanes", Part::EightLanes),
    ("garble", Part::Garble),
    ("garble_two", Part::GarbleTwo),
    ("garble1", Part::GarbleBy(1)),
    ("garble2", Part::GarbleBy(2)),
    ("garble4", Part::GarbleBy(4)),
    ("job", Part::Job),
    ("job_four", Part::JobFour),
    ("job1", Part::JobBy(1)),
    ("job2", Part::JobBy(2)),
    ("job4", Part::JobBy(4)),
    ("list", Part::List),
    ("list1", Part::ListBy(1)),
    ("list4", Part::ListBy(4)),
    ("digest", Part::Digest),
    ("sha", Part::Sha),
    ("write", Part::Write),
    ("read_file", Part::ReadFile),
    ("pieces", Part::Pieces),
    ("file_sha", Part::FileSha),
    ("eight_sha", Part::EightSha),
    ("kit_sha", Part::KitSha),
];

impl Part {
    /// The part of this name, where there is one.
    pub fn named(name: &str) -> Option<Part> {
        let named = PARTS.iter().find(|(known, _)| *known == name);
        named.map(|(_, part)| *part)
    }

    /// How many jobs the list has that it takes, if it takes one.
    pub fn jobs_listed(self) -> u32 {
        match self {
            Part::List | Part::ListBy(_) => 1000,
            _ => 0,
        }
    }
}
