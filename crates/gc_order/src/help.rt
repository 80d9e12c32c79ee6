//! The help of the program, its commands and their arguments.

pub(crate) const PROGRAM_HELP: &str = "\
With `--args-from FILE`, anywhere before `--`, each line of FILE is an argument in its place. FILE \
may be /dev/stdin. Other users of the machine can see a command line, but not these lines.

`halfgates help COMMAND` prints what `halfgates COMMAND --help` prints.

Example, with the seed in seed.txt:
  halfgates garble adder.txt --args-from seed.txt adder.garbled";

/// The help of a command, which ends by naming the option that clap doesn't know.
macro_rules! command_help {
    ($help:literal) => {
        concat!(
            $help,
            "\n\nWith `--args-from FILE` the lines of FILE are arguments: see `halfgates --help`."
        )
    };
}

pub(crate) const RUN_HELP: &str = command_help!(
    "\
Prints the output values, one per line: a character 0 or 1 for each wire, in wire order, or with \
--hex in hexadecimal, as values may be given.

Example, with a full adder in adder.txt that reads three bits:
  halfgates run adder.txt 0000000000000000000000000000000000000000000000000000000000000000 1 0 1"
);

pub(crate) const CHECK_HELP: &str = command_help!(
    "\
Prints six lines: `gates`, `wires` and `and` with the number of gates, wires and AND gates, \
`inputs` and `outputs` with the number of values and the number of wires of each, and `digest` \
with the SHA-256 of the circuit's canonical text in hexadecimal digits. Two files of the same \
circuit have the same digest.

Example:
  halfgates check adder.txt"
);

pub(crate) const LOCATE_HELP: &str = command_help!(
    "\
Prints `no fault` if the text is a valid circuit. Otherwise it prints `fault` with the code and \
the name of the first fault, `line` and `column` with its place and, where they apply, `gate` and \
`wire`. Lines and columns are counted from 1, and gates from 0. A column is a byte.

Example:
  halfgates locate adder.txt"
);

pub(crate) const STATS_HELP: &str = command_help!(
    "\
Prints eleven lines: `xor`, `and`, `inv`, `eq` and `eqw` with the number of gates of each \
operation, `depth` and `and_depth` with the greatest depth of a wire in gates and in AND gates, \
`level_width` with the number of AND gates for each AND depth, rounded down, `unread` with the \
number of gates that set a wire that no gate and no output value reads, and `garbled1` and \
`garbled2` with the number of bytes of the garbled file of version 1 and of version 2. `order` \
pays where `level_width` is 4 or more.

Example:
  halfgates stats adder.txt"
);

pub(crate) const PLAIN_HELP: &str = command_help!(
    "\
Prints the output values, one per line: a character 0 or 1 for each wire, in wire order, or with \
--hex in hexadecimal, as values may be given.

Example, with a full adder in adder.txt that reads three bits:
  halfgates plain adder.txt 1 0 1"
);

pub(crate) const ORDER_HELP: &str = command_help!(
    "\
Writes a circuit with the same gates and the same outputs into the file OUT, in canonical text, \
and prints `wrote` with the number of its bytes. Its gates are in order of AND depth, of one depth \
the AND gates first. Evaluating it can take half the time, and garbling it 0.7 to 0.8 of the time. \
Its digest is another: each party needs the ordered file.

Example:
  halfgates order adder.txt ordered.txt"
);

pub(crate) const GARBLE_HELP: &str = command_help!(
    "\
Writes the garbled file OUT, and prints `wrote` with the number of its bytes. Whoever has it, the \
circuit and a label file for each input value can evaluate the circuit, without the seed or the \
values.

Example:
  halfgates garble adder.txt 0000000000000000000000000000000000000000000000000000000000000000 \
adder.garbled"
);

pub(crate) const DEAL_HELP: &str = command_help!(
    "\
Writes the label file OUT, with a label for each wire of the input value, and prints `wrote` with \
the number of its bytes. The seed must be that of the garbled file.

Example, with a full adder in adder.txt that reads three bits, of which the first is 1:
  halfgates deal adder.txt 0000000000000000000000000000000000000000000000000000000000000000 0 1 \
first.labels"
);

pub(crate) const EVAL_HELP: &str = command_help!(
    "\
Prints the output values, one per line: a character 0 or 1 for each wire, in wire order, or with \
--hex in hexadecimal, as values may be given. There must be a label file for each input value of the \
circuit, in any order. Neither the seed nor the values are needed.

Example, with a full adder in adder.txt that reads three bits:
  halfgates eval adder.txt adder.garbled first.labels second.labels third.labels"
);

pub(crate) const JOBS_HELP: &str = command_help!(
    "\
Each line of LIST that is not blank is a job: the name of its garbled file and then the names of \
its label files, as `eval` takes them, with spaces or tabs between them. Prints the output values \
of each job, one per line, and then an empty line.

Example, with a full adder in adder.txt that reads three bits, and the line \
`adder.garbled first.labels second.labels third.labels` in list.txt:
  halfgates jobs adder.txt list.txt --workers 4"
);

pub(crate) const LABELS_HELP: &str = command_help!(
    "\
Prints a line for each wire that is set, in wire order: the wire, its zero label, its active label \
for these values, and its bit. A label has 32 hexadecimal digits. These lines reveal the values \
and the labels: keep them as secret as the seed.

Example, with a full adder in adder.txt that reads three bits, for the two wires from wire 6 on:
  halfgates labels adder.txt 0000000000000000000000000000000000000000000000000000000000000000 \
--from 6 --count 2 1 0 1"
);

pub(crate) const AUDIT_HELP: &str = command_help!(
    "\
Garbles the circuit, and compares the files with the result. Prints a line for each part of \
the garbled file, with `right`, or with `wrong` and where the part first differs: `digest`, \
`counts`, `rows`, `bits`, which are the decode bits, and `entries`, which a file of version 1 \
doesn't have. If the counts are wrong, the parts after them are left out. Then it prints a line \
`labels` for each label file, with the index of its input value and the bits that its labels stand \
for, or what is wrong with it, and finally `honest` if all is right, or else `dishonest`.

Example, with a full adder in adder.txt and the label file of its first input value:
  halfgates audit adder.txt 0000000000000000000000000000000000000000000000000000000000000000 \
adder.garbled first.labels"
);

pub(crate) const CIRCUIT_HELP: &str = "The file of the circuit, in Bristol Fashion";

pub(crate) const LIST_HELP: &str = "The file with the list of jobs";

pub(crate) const LABEL_FILES_HELP: &str =
    "A label file for each input value of the circuit, in any order";

pub(crate) const AUDITED_HELP: &str =
    "Label files of the circuit, any number of them, in any order";

pub(crate) const SEED_HELP: &str = "The seed of the garbling: 64 hexadecimal digits";

pub(crate) const INDEX_HELP: &str = "The index of the input value, counted from 0";

pub(crate) const VALUE_HELP: &str = "\
The input value: a character 0 or 1 for each wire, in wire order, or x and two hexadecimal digits \
for each 8 wires, of which the first wire is the lowest bit";

pub(crate) const VALUES_HELP: &str = "\
A value for each input value of the circuit: a character 0 or 1 for each wire, in wire order, or x \
and two hexadecimal digits for each 8 wires, of which the first wire is the lowest bit";

pub(crate) const FORMAT_HELP: &str = "\
The version of the garbled file, 1 or 2: with version 2 `eval` detects wrong output labels";

pub(crate) const FROM_HELP: &str = "The first wire to print, counted from 0";

pub(crate) const HEX_HELP: &str = "\
Print output values as x and two hexadecimal digits for each 8 wires, of which the first wire is \
the lowest bit";

pub(crate) const EXPLAIN_HELP: &str = "\
After the line of a fault, print a second one that says where the fault is and what is wrong; \
always on where standard error is a terminal";

pub(crate) const COUNT_HELP: &str = "The most lines to print; all by default";
