//! What `--help` and `--version` show.

/// The text of `--help`: each argument, and each command with an example.
pub const HELP: &str = "\
Runs a script of commands on a key-value bucket: one command a line from standard input, one JSON object a line to
standard output.

Usage: kvbucket [OPTIONS] < SCRIPT

Options:
      --bucket NAME         the name of the bucket: 1 to 64 letters, digits, _ and - [kv]
      --history N           how many entries of each key are kept, 1 to 64 [1]
      --value-limit N       how many bytes a value may have, to 1048576 [1048576]
      --write-limit N       how many writes may be stored, 1 to 1000000 [1000000]
      --revision-limit N    the last revision, 1 to 4294967295 [4294967295]
      --race N              read the whole script first, deal its writes to N workers that write at once, 1 to 16,
                            and show each watch from its beginning
      --text                values are text: in a line all that stands behind the space, in an answer a JSON string
      --journal FILE        keep the bucket in FILE, which is made if it isn't there: each answer to a write, a seal or a
                            compaction comes after its record; a compaction that leaves FILE more than twice too large
                            replaces it by what is stored: it writes FILE.checkpoint, and renames it
      --sync WHEN           when records are brought onto the disk: each one before its answer, so many at a time and at
                            the end, or only at the end: each, a number from 1, or close [each]
      --dump FILE           write the commands that make the bucket of FILE anew, and read no script
  -h, --help                show this
  -V, --version             show the version, and the kit that proved it

Commands: K is a key, B a value in base64, or - for the empty one, R a revision, F a filter. With --text, B is the rest
of the line as it stands.
  put K B                   put app.port ODA4MA==        write a value
  create K B                create app.name YQ==         write a value where there is none
  update K R B              update app.port 1 OTA5MA==   write a value where R is the last revision of the key
  delete K [R]              delete app.port              write a marker
  purge K [R]               purge app.name 2             write a marker, and forget the entries before it
  get K [R]                 get app.port                 the latest value, or the one of a revision
  history K                 history app.port             the entries of a key
  keys F[,F..]              keys app.>,db.port           the keys that have a value and match
  watch F[,F..] [WORD..]    watch app.*,db.> history     open a watch, numbered from 1; words: history, updates,
                                                         from=R, nodeletes, meta
  take ID N                 take 1 10                    hand out up to N items of a watch
  stop ID                   stop 1                       end a watch
  status                    status                       the numbers of the bucket
  seal                      seal                         end all writes
  compact R                 compact 4                    free the writes up to R that are kept no longer
  place K                   place app.port               where a key stands in the hash trie
  batch N                   batch 2                      the writes of the next N lines in one step, or none of them

Empty lines and lines that begin with # are skipped. A refused line is answered, and the script goes on.

Exit status, and what to do:
  0                         all of the input was run: refused lines have answers that say so
  1  OutOfMemory            memory was refused: raise the limit on it, or run a smaller script
     ReadFault              the input can't be read: only the lines before are answered, so mend it and run it again
     WriteFault             the output can't be written: make room, or keep its reader going, and run it again
     NoReader               a race could not be shown: run it again
     FileFault              the file can't be read or written: what was answered is in it, so make room and run the rest
     FileDamaged            the file was changed from outside, or is no journal: take a copy that is whole
     FileBusy               another process has the file: wait for its end
     OtherBucket            the file has another name, history or limit: give the options that it was made with
  2  BadBucket, BadConfig   the name, or a number, is not as the options say: give another
     and other faults       an argument is unknown, twice there, or has no such value: standard error shows which

Example: printf 'put a MQ==\\nget a\\n' | kvbucket
As text: printf 'put greeting hello, you\\nget greeting\\n' | kvbucket --text
Each command is shown with its answer in docs/script.md.
";

/// The text of `--version`: the program's version, and the logic that it is proved with. Releases of the kit share it.
pub const VERSION: &str = "kvbucket 0.1.0, proved with Rattle's logic dac8208d650f15bf\n";
