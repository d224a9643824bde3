//! What help says at its end.

/// What `zk_shell --version` prints after the name: the line of the file VERSION.
pub const VERSION: &str = "0.3.0";

/// At the end of the program's help.
pub const SHELL: &str = "\
history, replay, rehearse and live take a script on standard input, a line for each thing to do: the
help of each names its lines, and `zk_shell live --help` those that drive a client. The others take none.

Exit status: 0 done, and for help; 1 a fault in the input, told on standard error; 2 a fault of the
command line, told there too; 3 out of memory; 4 standard input or output failed, told there unless who
reads the output has closed it. Commands that ask for one node or a tree end with 5 to 8, 10 and 11 too:
`zk_shell get --help`. A watch ends with 9 too: `zk_shell watch --help`.";

/// At the end of the help of `live`.
const LIVE: &str =
    r"The script on standard input is read whole. Then the client connects to the first address that
answers, and the lines are done one by one. Empty lines and those that begin with # are skipped.

Lines:
  resume SESSION PASSWORD ZXID            Takes up a session, as saved printed it; first line only
  open                                    Connects again, from the address after the last on
  cut                                     Ends the connection
  now MS                                  The moment, in milliseconds; a ping goes out where it is due
  call TICKET exists PATH W               Asks, and waits for the answer. W is 1 to leave a watch, or 0
  call TICKET getdata PATH W
  call TICKET getchildren PATH W
  call TICKET create PATH DATA KIND       KIND: 0 plain, 1 ephemeral, 2 sequential, 3 both
  call TICKET setdata PATH DATA VERSION   VERSION: -1 for any
  call TICKET delete PATH VERSION
  call TICKET close                       Ends the session
  peek data PATH, peek names PATH         What is kept of a node, or of the names below it
  last                                    The last seen zxid
  saved                                   The session, to be resumed
  forget                                  Drops what is stale

TICKET is a number of yours, which the answer repeats. DATA and PASSWORD are hex, and \e for no bytes;
DATA may be \0, which is null. In a PATH a space stands as \x20, and so does each byte outside 21 to 7e.

Printed:
  state NAME                    Connecting, Connected, Idle, Expired or Closed
  down                          No address connected
  answer TICKET ZXID RESULT     stat STAT, data DATA STAT, names N NAME.. STAT, created PATH or done;
                                code N, which the server gave; and with no reply, whose ZXID is -:
                                K1 connection lost, K2 session expired, K3 closed, K4 not connected,
                                K5 too many watches, K6 too large, K7 too many calls pending
  report SIDE EVENT PATH        A watch told of a change: what is kept on this side is stale now
  drop FAULT                    The connection is given up: what came is wrong, or nothing came
  data absent MARK              And data full DATA SEVEN MARK, data known SEVEN MARK, or data none,
                                where nothing is kept; MARK is good or stale
  names N NAME.. PZXID MARK     And names none
  last ZXID
  saved SESSION PASSWORD ZXID
  halt                          Memory ran out in the client

STAT is czxid mzxid ctime mtime version cversion aversion ephemeralOwner dataLength numChildren pzxid,
SEVEN is czxid mzxid ctime mtime version ephemeralOwner dataLength.

FAULT is D1 nothing was heard for two thirds of the timeout, D2 a reply is older than what was seen
(both zxids), D3 the watches were refused (the code), F1 a length is below 0, F2 above 4194304, C1 a
frame is too short, C2 nobody asked (its xid), C3 not the oldest request's (both xids), C4 a reply or C5
a notice does not read: J1 cut off, J2 a bad length, J3 no boolean, J4 no UTF-8, at a byte.
N of code N is -4 the server lost its connection, -101 no node, -102 no right to it, -103 another version,
-108 the parent is ephemeral, -110 the node exists, -111 it has children, -112 the session is over, -118
it moved to another connection, -127 the server throttles; others are in ZooKeeper's list.

A line that is refused ends the script, with `line N: REASON` on standard error. REASON is unknown,
place, words, number, hex, or the path's fault: path P1 where it is empty, P2 too long, P3 without a
slash at its front, P4 with a character that no path has, P5 with an empty name, P6 with . or .. as one.

Exit status: 0 done, also where no server answers; 1 a line is refused; 2 a fault of the command
line; 3 out of memory; 4 standard input or output failed.

Example:
  printf 'call 1 create /a 6869 0\ncall 2 getdata /a 1\npeek data /a\ncall 3 close\n' |
    zk_shell live 127.0.0.1:2181";

/// At the end of the help of `watch`.
const WATCH: &str =
    r"Connects to one of the hosts of SERVERS, which `zk_shell get --help` tells, in random order, reads each
node with a watch, and goes on to print a line whenever something else is kept of it than was printed last.
Where the connection is lost, the next host is dialled, and where the session expires, a new one begins.
--data, --children and --tree may be used several times, each with a PATH as it is, without escapes. With
none, the session alone is told. Where a path stands after the hosts, each PATH is below it, and the paths
that are printed are whole: with 127.0.0.1:2181/app and --data /config, /app/config.

With --tree the node and all below it are watched, as they come to be known: of each its data and the names
below it. One that was found so and is deleted is printed once more, as one that does not exist, and then
watched no more; the node of --tree itself is watched also before it is made and after it is deleted. Where a
tree is known to have more nodes than --most, no more of it are watched while it has.

Printed, each line at once, with the seconds since the watch began before it:
  dial ADDRESS                  This host is tried
  failed ADDRESS REASON         It could not be connected to
  ended ADDRESS REASON          The connection has ended
  drop FAULT ADDRESS WORDS      The connection is given up: what came is wrong, or nothing came
  state NAME                    Connecting, Idle, Expired or Closed. Idle after Connecting, with no ended and
                                no drop between: the server did not accept the session in time
  state Connected ADDRESS session SESSION timeout MS
                                A server has accepted the session, and granted this timeout
  session new                   After state Expired: nothing is kept any more
  PATH does not exist last ZXID There is no such node
  PATH data full DATA SEVEN MARK last ZXID
  PATH data known SEVEN MARK last ZXID
  PATH data absent MARK last ZXID
  PATH data none last ZXID      What is kept of the node, and the last seen zxid
  PATH names N NAME.. PZXID MARK last ZXID
  PATH names none last ZXID     What is kept of the names below it
  PATH refused code N WORDS     A read was refused, and is tried again a second later; told once for each
                                reason. K5 in place of code N: no server was asked. K6: its answer is
                                longer than a session allows
  bound N a tree has more nodes: no more of it are watched
                                N is that of --most
  halt                          Memory ran out in the client

DATA, SEVEN, NAME, PZXID, MARK, FAULT and SESSION are as in `zk_shell live --help`; in a PATH a space is
printed as \x20. Where MARK is good, this is what the servers' history says at ZXID, and no change is
known; where it is stale, a change was told, and the node is being read again. REASON is connection
refused, timed out, connection reset, unreachable, host not found, end of stream, a write failed, or another fault.

With --text the DATA of data full stand in quotes, with the escapes of JSON, where they are text: UTF-8 with
no control characters other than tab and newline, and none that turn the direction. Others stand in hex, and
null as \0.

With --json each line is an object of JSON. Its kind is dial, failed, ended, drop, state, renewed (for session
new), refused or bound (its nodes are N); and of what is kept data, names, absent (there is no such node), known
or none. ms are the milliseconds since the watch began; side is data or names, whichever is watched; data are
a text or null, or hex where they are no UTF-8; the other keys are named as the words above, and the fields as
by ZooKeeper.

The session is closed when the time of --for is over, and when a line can't be written. That standard
output is closed is seen at the next line alone. An interrupt is not seen at all: it ends the program, and
the server ends the session after its timeout.

Exit status: 0 the time is over; 2 a fault of the command line; 3 out of memory; 4 standard output
failed, or was closed; 9 the time is over, and no server has ever accepted the session.

Example, where nothing listens at port 2180, /config is hi, and is set to bye while it is watched:
  zk_shell watch 127.0.0.1:2180,127.0.0.1:2181 --data /config --for 60
prints
  0.000 dial 127.0.0.1:2180
  0.000 failed 127.0.0.1:2180 connection refused
  0.335 dial 127.0.0.1:2181
  0.336 state Connecting
  0.342 state Connected 127.0.0.1:2181 session 72057602730983425 timeout 30000
  0.344 /config data full 6869 3 3 1700000000000 1700000000000 0 0 2 good last 3
  9.018 /config data full 6869 3 3 1700000000000 1700000000000 0 0 2 stale last 3
  9.020 /config data full 627965 3 5 1700000000000 1700000009000 1 0 3 good last 5
  60.004 state Closed
  60.004 /config data none last 5
With --json, the data alone:
  zk_shell watch 127.0.0.1:2181 --data /config --json | jq --unbuffered .data";

/// At the end of the help of the commands that ask for one node.
const ASK: &str =
    r"SERVERS is one word: hosts with commas between them, of which one that answers is asked. A host is a name
or an address, with its port where that is not 2181: zk1, zk1:2182, 127.0.0.1:2181, [::1]:2181. A name
is looked up at each dial, which takes as long as the system lets it, and its addresses are tried in turn.
After the hosts may stand a path, as in zk1:2181/app: then PATH is below it, and so are the paths that
are printed. SERVERS may be left out: they are those of the environment's DIRWOLLEU_HOSTS then, or
127.0.0.1:2181.

Printed:
  get           the data: a text in UTF-8 as it is, with a newline after it, and data with other control
                characters than tab and newline, or characters that turn the direction, or that are no
                UTF-8, or begin with hex:, as hex: and their bytes in hex. Null data print nothing
  get --hex     the data in hex, \e for no bytes, \0 for null, as set and create take them with --hex
  get --raw     the bytes of the data as they are, and nothing else: for a file, or for another program
  ls            the names below the node, a line each, in the order of their bytes. In names and paths with
                control characters, or that turn the direction, bytes outside 21 to 7e stand as \xHH
  stat          a line for each field, by ZooKeeper's name: czxid, mzxid, ctime, mtime, version,
                cversion, aversion, ephemeralOwner, dataLength, numChildren, pzxid
  tree          the path of the node and of each one below it, a line each: those below a node come after it,
                in the order of their bytes
  create        the path of the node that was made
  set, delete   nothing
  --json        of get, ls, stat, tree and create: an object of JSON a line. That of get has data, a text
                or null, or hex where the data are no UTF-8, and then the fields of stat; those of ls have
                a name each, and those of tree and create a path

A tree is asked for node by node, so it need not be that of one moment; a node that is gone by then is left
out. --wait is for all answers together.

The data that set and create give: DATA as it is; with --hex, what that means; with --null, null; and with
--from FILE the bytes of the file, as they are, those of standard input where FILE is -. They are read
before anything is asked. A call takes some 1,048,500 bytes of data, by the length of its path.

No node is ephemeral: it would be gone with the session of the command, at its end.

What is not done is told on standard error, with PATH:
  no node: /a                         For create, the node above it is not there
  refused: /a: the node has another version (-103)
  not connected: /a: no server has answered in time
  127.0.0.1:2181: connection refused  And so for each address that was dialled: what came of it last
  no answer: /a: its time is over, and it may or may not have happened
                                      Of get, ls, stat and tree: its time is over
  cut off: /a: 10000 nodes are printed, and there are more
                                      Of tree, where there are more than --most says
  unread: FILE: there is no such file      Or it may not be read, a read failed, or it is too long

Exit status: 0 done; 2 a fault of the command line; 3 out of memory; 4 standard output failed; 5 no
node; 6 refused; 7 no server has answered in time; 8 no answer to the call, which may be done or not; 10
FILE is not read; 11 there are more nodes than --most. After 5, 6, 7 and 10 nothing was changed.

Examples:
  zk_shell create 127.0.0.1:2181 /config 'level = 1'
  zk_shell get 127.0.0.1:2181 /config --raw >config
  zk_shell set 127.0.0.1:2181 /config --from config
  zk_shell set 127.0.0.1:2181 /config 'level = 2' --version 0 || echo changed meanwhile
  zk_shell stat 127.0.0.1:2181 /config --json | jq .version";

/// At the end of the help of `show`.
const SHOW: &str =
    r"zk_shell show --stream takes a capture of one connection on standard input instead, and prints a line for
each frame of it. Each line of the capture has the bytes of a piece of it, in their order:
  > HEX                         What the client sent
  < HEX                         What the server sent
The record of a client is a capture of each of its connections. Its lines without bytes are passed over.
Empty lines and those that begin with # are skipped. A capture of one direction will do, and pieces may
be cut anywhere. It has to begin where the connection begins. From a file that tcpdump wrote, for its
first connection (tcp.stream eq 0):
  tshark -r FILE -q -z follow,tcp,raw,0 |
    sed -n 's/^\t\([0-9a-f]*\)$/< \1/p; s/^\([0-9a-f][0-9a-f]*\)$/> \1/p' | zk_shell show --stream

Printed, by ZooKeeper's names, of data how many bytes they are, and of a list how many elements it has:
  > PLACE length N connect FIELDS           The first frame of the client; its password is not printed
  < PLACE length N connected FIELDS         That of the server
  > PLACE length N xid XID type T NAME FIELDS
  < PLACE length N xid XID type T NAME zxid ZXID err E NAME FIELDS
                                A reply, with the type of the last request with its xid; unasked in place of
                                the type where there was none. FIELDS only where err is 0
  < PLACE length N xid -1 notice zxid ZXID err E NAME type T NAME state S path PATH
  .. fault WORDS                What is wrong in the frame, with the byte of its payload; or what is wrong with a
                                length, after which no frame of this direction can be found
  > PLACE left N bytes          At the end: these are no whole frame

PLACE is the byte of its direction at which the frame begins, with its length, and N the bytes after the
length. Of types whose records zk_shell does not read, the number and N are printed, and the name where
it knows one, else unknown. A text is printed as in `zk_shell live`, null as \0.";

/// At the end of the help of `history`.
const HISTORY: &str =
    r"The script on standard input tells a history, and then asks it. Empty lines and those that begin
with # are skipped. With --log FILE.. servers' logs are read instead: `zk_shell history --log --help`.

Lines:
  node PATH DATA TIME       A node of the first tree; only before the first tx
  tx ZXID TIME              Begins a transaction. ZXID is above that of the one before
  create PATH DATA OWNER    Changes of it, in order. OWNER is the session of an ephemeral node, or 0
  set PATH DATA
  delete PATH
  ask ZXID data PATH        Prints what there was to see at this zxid; only ask lines may follow
  ask ZXID names PATH

DATA is hex, and \e for no bytes, or \0, which is null. TIME is in milliseconds. In a PATH a space
stands as \x20, and so does each byte outside 21 to 7e.

Printed:
  data DATA CZXID MZXID CTIME MTIME VERSION OWNER LENGTH, or data absent
  names N NAME.. PZXID, in the order of their bytes, or names absent

A line that is refused ends the script, with `line N: REASON` on standard error. REASON is unknown,
place, words, number, hex, path P1 to P6, order for a zxid that is not above the one before, or illegal
for a change that the tree does not allow.

Example:
  printf 'tx 3 1000\ncreate /a 68 0\ntx 5 2000\nset /a 6869\nask 4 data /a\nask 5 data /a\n' |
    zk_shell history";

/// At the end of the help of `replay`.
const REPLAY: &str =
    r"The script on standard input tells what happens to a client, line by line, and what it says is
printed. Empty lines and those that begin with # are skipped.

Lines:
  timeout MS                      Makes the client, with the timeout that it asks for; the first line
  resume MS SESSION PASSWORD ZXID So does this: it takes up a session, as saved printed it
  opened                          A connection is open
  bytes HEX                       These bytes came
  > HEX                           The client has sent this, says a record: passed over
  cut                             The connection is lost

All others are those of live, and so is what is printed: `zk_shell live --help` lists them. Besides,
each frame that the client sends is printed as send HEX, with its length.

A line that is refused ends the script, with `line N: REASON` on standard error, as in live.

Example:
  printf 'timeout 30000\nopened\ncall 7 exists /a 1\nlast\n' | zk_shell replay";

/// At the end of the help of `rehearse`.
const REHEARSE: &str =
    r"The script on standard input tells a history, and then drives a client over eight servers in
memory, which hold what they have taken of it. Empty lines and those that begin with # are skipped.

Lines:
  node, tx, create, set, delete   The history, as in `zk_shell history --help`
  begin MS                        Makes the client, with the session timeout that it asks for
  open N                          Connects it to server N, 1 to 8
  take N                          Server N takes the next transaction; its notices are on their way
  process                         The connected server answers the next request
  deliver, deliver K              What is on its way reaches the client: all of it, or K bytes
  cut                             The connection is lost
  expire                          From now on who connects is told that the session has expired
  rejoin                          Gives the client up: a new one takes up its session
  good                            Asks of each good answer whether the history says the same at the
                                  client's last seen zxid: good SIDE PATH agrees, or differs

The lines now, call, peek, last, saved and forget are those of live, and so is what is printed:
`zk_shell live --help` lists them. Besides, each frame that the client sends is printed as send HEX,
with its length. A write that is accepted is a new transaction of the history.

A line that is refused ends the script, with `line N: REASON` on standard error, as in live and history.

Example:
  printf 'node /a 68 0\nbegin 30000\nopen 1\nprocess\ndeliver\ncall 1 getdata /a 1\nlast\n' |
    zk_shell rehearse";

/// At the end of the help of a command.
pub fn last_of(command: &str) -> &'static str {
    match command {
        "show" => SHOW,
        "history" => HISTORY,
        "replay" => REPLAY,
        "rehearse" => REHEARSE,
        "live" => LIVE,
        "watch" => WATCH,
        _ => ASK,
    }
}
