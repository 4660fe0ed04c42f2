// The pages of `osp help`.

// The page of a word: of none the list of the subcommands, of one of them how it is called.
pub(crate) fn page_of(word: &[u8]) -> Option<&'static str> {
    match word {
        b"" => Some(OVERVIEW),
        b"fields" => Some(FIELDS),
        b"build" => Some(BUILD),
        b"info" => Some(INFO),
        b"replay" => Some(REPLAY),
        b"board" => Some(BOARD),
        b"dump" => Some(DUMP),
        b"script" => Some(SCRIPT),
        b"help" => Some(HELP),
        _ => None,
    }
}

const OVERVIEW: &str =
    "osp fields HEX..                        the fields of a telegram, and why it is refused
osp build ADDRESS COMMAND [VALUES]      the bytes of a telegram
osp info [COMMAND]                      what a command is, or all of them
osp replay --lamps N [OPTIONS] FILE     a script done on a fresh chain: answers, refusals, the lamps after it
osp board --lamps N [OPTIONS] FILE      the same script, and the board after it as a picture (SVG)
osp dump [OPTIONS] FILE                 a raw capture, telegram by telegram, and where and why it is refused
osp script                              a subcommand from each line of standard input
osp help [SUBCOMMAND]                   how one is called
Status: 0 done, 1 refused, 2 wrong use, or input or output that failed.
";

const FIELDS: &str = "osp fields HEX..
The bytes of one telegram in hex, as in: osp fields A0 25 02 6B 50 7F
Prints its fields. A refused telegram has its number, the reason, and the failed field marked.
";

const BUILD: &str = "osp build ADDRESS COMMAND [VALUES]
ADDRESS: hex (001 is a lamp, 000 everyone, 3F0 group 0), everyone, or group N.
VALUES: the payload's bytes in hex; setpwm and setpwm_sr also take red, green and blue as night DUTY or day DUTY (0 to 32767).
  osp build 001 initbidir
  osp build everyone goactive
  osp build 001 setpwm night 1000 day 2000 night 0
  osp build group 3 setsetup 13
  osp build 001 goactive_sr
";

const INFO: &str = "osp info [COMMAND]
Number, casts, payload and answer of a command and what it does, as in: osp info setpwm
";

const REPLAY: &str =
    "osp replay --lamps N [--setup HH] [--thresholds HH HH HH] [--raw] [--quiet] [--json] FILE
FILE (- is standard input) has a telegram a line in hex, or: sensor PLACE TEMP FAULTS
# starts a comment. PLACE and FAULTS (4 LOS, 2 OT, 1 UV, or a sum) are decimal, TEMP is two hex digits.
With --raw FILE is a raw capture: the bytes of telegrams one behind the other, up to the first that is refused.
--quiet prints the lamps alone, --json an object a line.
";

const BOARD: &str = "osp board --lamps N [--setup HH] [--thresholds HH HH HH] [--raw] FILE
Prints the board after a script or a raw capture (see osp help replay) as an SVG picture: osp board --lamps 12 FILE > board.svg
";

const DUMP: &str = "osp dump [--json] [--quiet] FILE
FILE (- is standard input) is a raw capture: the bytes of telegrams one behind the other, as a logger wrote them.
Prints each as soon as it is whole: its position, its bytes, what they say. The first refused one ends it, with what was expected.
--quiet prints the last line alone, --json an object a line.
";

const SCRIPT: &str = "osp script
Takes a subcommand from each line of standard input. Prints the line, what the subcommand prints, and its status.
";

const HELP: &str = "osp help [SUBCOMMAND]
";
