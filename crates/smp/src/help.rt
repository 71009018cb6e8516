// What the program says of itself.

/// The text of `smp --version`.
pub const VERSION: &str = "smp 0.1.0\n";

/// The text of `smp --help`.
pub const HELP: &str = "\
A device manager for firmware: MCUmgr's Simple Management Protocol, verified.

usage: smp replay SCHEDULE
       smp --help
       smp --version

replay SCHEDULE  has the events of the schedule happen to a device and its
                 clients, and prints a transcript

A schedule is a text with one event a line; empty lines and lines that begin
with `#` are skipped. It has at most 100000 events and 8388608 bytes.

flash PAGE UNIT PAGES IMAGE [IMAGE2]   first: the flash, and what runs on it
client K JOB                           client K begins: 1, 2, .. up to 8
raw HEX                                a packet of 1 to 4096 bytes comes
up N, up new                           packet N of a client comes to the device
down N, down new                       reply N comes to its client
quiet K                                a wait of client K ends
arm cut|fail REGION N LEFT             the N-th write or erase there is struck
arm read REGION N                      the N-th read there fails
boot                                   power goes off and on

JOB is one of: upload FILE CHUNK only|test|confirm [1]; list; set NAME HEX ..;
put FILE NAME; get NAME; echo TEXT.

exit status:  0 done   2 usage   3 bad schedule, bad image, file too long
              4 file fault   5 write fault   10 no memory
";
