// What --help and --version print.

pub(crate) const VERSION: &str = "guyotchopper 0.1.0\n";

pub(crate) const HELP: &str =
    "guyotchopper corrects a text by a list of calls, and prints what each call did.

usage: guyotchopper run [--store gap|pieces] [--capacity N] [--text FILE] [--out FILE] [CALLS]
       guyotchopper --help | --version

  --store gap|pieces  the make of the text store (gap)
  --capacity N        the most bytes that the text may have, 0 to 32768 (32768)
  --text FILE         the text to start from (an empty one)
  --out FILE          where to write the corrected text (nowhere)
  CALLS               the list of calls (standard input)

One call to a line; blank lines, and lines that begin with #, are passed over:
  insert PLACE \"BYTES\"   delete PLACE COUNT   copy PLACE COUNT
  byte PLACE             length               capacity
Numbers are decimal. The escapes in bytes are \\\\ \\\" \\n \\t \\xHH; all other bytes from 0x20 to
0x7e stand for themselves.

For each call a line is printed: the number of its line, the call, an arrow and the answer; then the
text. Where the words, the list or a file cannot be read, or the text does not fit, a message says
what was expected, nothing is written, and the status is 1.
";
