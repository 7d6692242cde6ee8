// What help tells at the end: what a file holds, with a small example; and in full, all that a file
// may hold, and how the program ends.

/// What short help and help in full both begin with.
macro_rules! front {
    (program $more:literal) => {
        concat!(
            "\
Without a command a calls file is read from standard input:
  echo '{\"limit\":10,\"calls\":[[\"write\",7],[\"read\",0]]}' | msgrun

What the files hold: `msgrun help buffer`, `msgrun help run`; in full docs/FORMATS.md.",
            $more
        )
    };
    (buffer $more:literal) => {
        concat!(
            "\
FILE is JSON: the limit of one message buffer, and calls of it and of its cursors.
  {\"limit\":10,\"calls\":[[\"batch\",[7,8,9]],[\"read\",0,2],[\"update\"],[\"read\",0]]}
Each call is answered by a line, an item as NUMBER=VALUE:
  batch 0+3
  read 0 missed 0: 0=7 1=8
  update
  read 0 missed 0: 2=9",
            $more
        )
    };
    (run $more:literal) => {
        concat!(
            "\
FILE is JSON: message types with limits, systems with their ops, rules of order, and
frames, each a list of what the host posts.
  {\"types\":[[\"hit\",10]],
   \"systems\":[{\"name\":\"r\",\"ops\":[[\"read\",\"hit\"]]},
              {\"name\":\"w\",\"ops\":[[\"write\",\"hit\",5]]}],
   \"rules\":[[\"r\",\"w\"]],
   \"frames\":[[],[[\"hit\",6]]]}
Each frame is told, and at the end what each reader got, missed and cleared:
  frame 1
  r read hit missed 0: none
  w write hit 0+1
  frame 2
  host post hit 1+1
  r read hit missed 0: 0=5@w 1=6@host
  w write hit 2+1
  reader r hit start 0 got 2 missed 0 cleared 0 place 2",
            $more
        )
    };
}

pub(crate) const PROGRAM: &str = front!(program "");

pub(crate) const PROGRAM_IN_FULL: &str = front!(
    program
    "\n\n\
The exit status, and the line on standard error:
  0  all was done, or help was asked for
  1  cannot read input; write fault; want of memory; run fault 3 NoMemory
  2  bad command line; input too large (more than 4194304 bytes); refused N NAME

A file is refused as
   1 NotJson      it is no JSON text in UTF-8
   2 Shape        a part is of another kind, or has another length, than wanted there
   3 UnknownKey   an object has a key that isn't known there
   4 BadName      a name isn't 1 to 32 of a to z, 0 to 9 and _, or it is host
   5 TwiceNamed   a name stands twice among the types, the resources or the systems
   6 BadNumber    a number isn't whole, or isn't in its range
   7 TooMany      a list is too long
   8 UnknownName  there is no type, resource or system of this name
   9 Clash        a system reads and writes one type
  10 Cycle        the rules go round in a circle
`msgrun check FILE` says where and why, and so do `run` and `buffer` with --explain."
);

pub(crate) const BUFFER: &str = front!(
    buffer
    "\n\n\
The calls: write, batch, read, len, missed, clear, update, cursor, cursor_current, get,
current, oldest, count, total, drain, clear_all. docs/FORMATS.md describes each."
);

pub(crate) const BUFFER_IN_FULL: &str = front!(
    buffer
    "\n\n\
Keys: limit, how many messages can ever be written (0 to 1000000); calls, a list of at most
10000. Cursor 0 is there from the beginning, at place 0; there are at most 64.

The calls, with c a cursor, v a whole number of 64 bits, and k a number up to 1000000:
  [\"write\",v]         writes one message
  [\"batch\",[v,..]]    writes up to 1024 messages, all or none
  [\"update\"]          makes each message one update older; at two it is dropped
  [\"read\",c]          gives cursor c all unread messages
  [\"read\",c,k]        gives it the first k of them
  [\"len\",c]           how many messages are unread and still kept
  [\"missed\",c]        how many unread messages were dropped
  [\"clear\",c]         takes cursor c past all messages
  [\"cursor\"]          makes a cursor at place 0
  [\"cursor_current\"]  makes one after all messages
  [\"get\",n]           the message of number n
  [\"current\"]         the messages written since the last update
  [\"oldest\"]          the number of the oldest message that is kept
  [\"count\"]           how many messages were ever written
  [\"total\"]           how many are kept
  [\"drain\"]           takes all messages out, the older ones first
  [\"clear_all\"]       drops all messages
A write that finds no number left is answered by spent. docs/FORMATS.md has each line, and
`msgrun --help` the refusals and the exit statuses."
);

pub(crate) const RUN: &str = front!(
    run
    "\n\n\
A file may also have resources and held updates, and a system other ops, a kind, conditions
(if), a frame to join with and a start. `msgrun help run` describes all of it.

With --losses each reader's line ends with what it lost and what it hasn't read, and there is a
line for each writer with what it was refused. With --json each frame is one line of JSON, and
so are the readers and writers: `msgrun help serve`."
);

pub(crate) const RUN_IN_FULL: &str = front!(
    run
    "\n\n\
Keys of the file; types, systems and frames are needed:
  types      at most 64 of [name,limit]; the limit, 0 to 1000000, is how many messages of it
             can ever be written
  resources  at most 64 of [name,value]
  held       true: types are updated only in frames after a signal
  systems    at most 256 objects
  rules      at most 1024 of [name,name]: the first system runs before the second
  frames     at most 10000, each a list of at most 1024 posts [type,value]

Keys of a system; name and ops are needed:
  name       1 to 32 of a to z, 0 to 9 and _, and not host
  kind       \"script\"; \"relay\", whose ops are one forward; \"tally\", whose ops are one sum
  ops        at most 64
  if         at most 8 conditions, which all have to hold for it to run on its turn
  join       the frame that it joins with, 1 to 10000
  start      \"zero\": it reads from the first message on; \"current\": from those on that are
             written after it joins

The ops, with t and u a type, r a resource, v a whole number of 64 bits, and k a number up
to 1000000:
  [\"write\",t,v]       writes one message
  [\"batch\",t,[v,..]]  writes up to 1024 messages, all or none
  [\"read\",t]          gives the system all unread messages
  [\"read\",t,k]        gives it the first k of them
  [\"len\",t]           how many messages are unread and still kept
  [\"missed\",t]        how many unread messages were dropped
  [\"clear\",t]         goes past all messages of t
  [\"forward\",t,u]     reads all unread messages of t and writes their values to u
  [\"sum\",t,r]         reads all unread messages of t and adds each value to r
  [\"get\",r]           tells the value of r
  [\"set\",r,v]         makes it v
  [\"add\",r,v]         adds v to it
  [\"drain\",t]         takes all messages of t out, the older ones first
  [\"signal\"]          has a held world updated with the next frame

The conditions:
  [\"on_message\",t]         messages of t are unread for it
  [\"resource_equals\",r,v]  r has the value v
  [\"not\",C]                the condition C doesn't hold; at most 16, one in another

With --losses each reader's line ends with what it lost and what it hasn't read, and there is a
line for each writer with what it was refused. With --json each frame is one line of JSON, and
so are the readers and writers: `msgrun help serve`.
docs/FORMATS.md has each line of the report, and `msgrun --help` the refusals and the exit
statuses."
);

pub(crate) const CHECK: &str = "\
FILE is read as `msgrun run` reads it; or, if its keys are those of a calls file, as `msgrun
buffer` does. Nothing is run. A file that can be run is told with its counts:
  ok: 2 systems, 1 types, 0 resources, 1 rules, 2 frames
and a scenario with a remark on each thing that its author may not have meant:
  remark: r reads hit a frame late, since it runs before w (rules[0])
One that is refused is told with the place of its first fault, what stands there, and why
that is refused, with the name that may have been meant:
  msgrun: refused 8 UnknownName
  at systems[1].ops[0][1]: \"hat\" (system \"r\")
  ..
Systems, types and all lists are counted from 0.";

pub(crate) const PLAN: &str = "\
FILE is read as `msgrun run` reads it, and nothing is run. The plan of a frame is its batches,
whose systems run side by side; why each system is before the next; who writes and who reads
each type; and the longest chain of systems that wait for one another:
  frame 1
  batch 1: r
  batch 2: w
  r before w: rule, type hit
  type hit: written by w; read by r (a frame late)
  longest chain: r w (2)
A picture of it, if Graphviz is installed: `msgrun plan FILE --dot | dot -Tsvg`.";

pub(crate) const SERVE: &str = "\
FILE is read as `msgrun run` reads it, and its frames are run. Then each line of standard
input is a frame, a list of posts as in FILE, and is answered by one line before the next is
read:
  [[\"hit\",6]]
  {\"frame\":3,\"posts\":[{\"type\":\"hit\",\"first\":3,\"n\":1}],\"turns\":[..],
   \"types\":{\"hit\":{\"oldest\":1,\"written\":5}},\"resources\":{}}
A line that is refused changes nothing, and is answered by where and why:
  [[\"hat\",6]]
  {\"refused\":8,\"name\":\"UnknownName\",\"at\":\"[0][0]\",\"why\":\"..\"}
The line \"readers\", with its quotes, asks what each reader got, missed and cleared; that is
told at the end of input too. A line has at most 4194304 bytes. docs/FORMATS.md has it all.";
