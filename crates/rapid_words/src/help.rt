// What the helps of the program say.

/// The version of the program.
pub(crate) const VERSION: &str = "0.1.0";

/// What `--help` says of the statuses.
pub(crate) const STATUSES: &str =
    "Status: 0 at the end of the input and after help and the version, 1 if standard input or output
failed, 2 if the words were refused, 3 if memory ran out. Of node see rapidd node --help.
Faults go to standard error as error: .. . What a node reports while it goes on goes there as
note: .. or warning: .. . All else goes to standard output.";

/// What `detect --help` says of the lines.
pub(crate) const DETECT_LINES: &str = "Lines:
  watermarks K H L               once, before all others; 1 <= L <= H <= K <= 16
  joiner N                       process N is no member; all others are
  edge RING OBSERVER SUBJECT     an edge of the table of observers
  remove RING OBSERVER SUBJECT   an alert to remove a member, for the next batch
  join RING OBSERVER SUBJECT     an alert to let a joiner in, for the next batch
  batch                          hands the batch to the detector, and prints cut N .. or none, and then
                                 skipped n if it skipped n alerts; after the first cut always none
Processes are numbers from 1 to 65535. A line that begins with # is ignored.

A line that is refused prints refused NAME and has no effect. The run goes on, and its status stays 0.
NAME is the first of these that holds:
  BadLine        the line is none of the above, a second watermarks, or an edge of a process to itself
  NoWatermarks   watermarks was not taken yet
  BadParams      K, H and L are not 1 <= L <= H <= K <= 16
  TooLate        joiner or edge after the first alert or batch
  TooMany        more than 512 joiners, 16384 edges, 1024 subjects that are members, or 16384 alerts a batch
  RingRange      an edge on a ring that is not below K
  EdgeTwice      the subject has an observer on this ring

Status: 0 at the end of the input and after help, 1 if standard input or output failed, 2 if the words
were refused, 3 if memory ran out.";

/// What `sim --help` says of the lines.
pub(crate) const SIM_LINES: &str = "Lines:
  params K H L                     first; 1 <= L <= H <= K <= 16
  found N ..                       second: the founders, ascending; founder N is at port N
  start N PORT SEEDPORT [TAG ..]   process N starts at a port, and asks at the port of a member
  probe N RING ok|fail [COUNT]     node N has a result of a probe on a ring
  lose N                           four probes of N fail on each ring on which it is observed
  tick N [COUNT]                   the clock of node N ticks
  deliver P                        packet P comes to the node at its endpoint
  drop P                           packet P is skipped by later flows
  flow                             delivers packets in order until there are none, or 10,000 were passed
  crash N                          node N stops for good
  leave N                          node N asks those that observe it to have it removed
  packets                          prints how many packets were sent
Processes are numbers from 1 to 65535 at 127.0.0.1, packets are numbered from 1 in the order sent, and
COUNT is 1 to 1000. A process has up to 8 tags, ascending, each of 1 to 64 characters without , [ and ].
A line that begins with # is ignored. A view that a node enters prints
  node N height H members N ..     or node N removed at height H if it is not in it
A member with tags is printed with them behind its number, such as 2[db,web].

A line that is refused prints refused NAME and has no effect; of a repeated event what came before
stands. The run goes on, and its status stays 0. NAME is one of
  BadLine          the line is none of the above, a second params or found, or drops a packet never sent
  NoParams         params or found was not taken yet
  BadParams        K, H and L are not 1 <= L <= H <= K <= 16
  TooManyTags      there are more than 8 tags
  BadTag           a tag has more than 64 characters, or has , [ or ]
  TagsNotSorted    the tags do not ascend
  IdentifierUsed   process N was started before
  EndpointBusy     a node runs at the port
  NoSuchNode       no node N runs, or none at the packet's endpoint
  NoSuchPacket     no packet P was sent
  NotObserved      node N observes nobody on the ring
  EventsFull       1000000 events were accepted
  OutOfMemory      there was no memory for the event
A node that has halted, out of memory or after 65536 views, prints node N halted.

Status: 0 at the end of the input and after help, 1 if standard input or output failed, 2 if the words
were refused, 3 if memory ran out.";

/// What `cluster --help` says of what it does.
pub(crate) const CLUSTER_TURNS: &str =
    "Process 1 is the founder, and the others ask it to let them in. A turn delivers the least packet
that no turn has delivered or skipped and at whose endpoint a node runs. If there is none, the
clock of the next node ticks. At the end it prints
  events E                       how many starts and turns there were
  node N height H members ..     for each member; node N joining for one that has no view
  agree yes|no                   no if two nodes hold different identifiers at one height

Status: 0 at the end and after help, 1 if standard output failed, 2 if the words were refused, 3 if
memory ran out.";

/// What `node --help` says of the lines.
pub(crate) const NODE_LINES: &str = "Lines of standard input:
  tick [COUNT]   the clock ticks this many times, 1 to 1000; once without COUNT
  view           prints the present view, or no view
  edges          prints edge RING ENDPOINT up or down for each edge that the node observes, or edges none
  leave          asks the cluster to remove the node; once a view without it is printed, quit
  quit           ends the node, as the end of the input does
A line that begins with # is ignored, and another prints refused BadLine. Each view that the node
enters prints
  height H members ENDPOINT ..
A member with tags is printed with them behind its endpoint, such as 127.0.0.1:7401[db,zone-a].
What it reports while it goes on, such as why it waits to be let in, is a line note: .. on standard
error.
An ENDPOINT is 127.x.x.x:PORT with a port from 1 to 65535, such as 127.0.0.1:7401. K, H and L are those
of a cluster that the node founds, 1 <= L <= H <= K <= 16; one that joins takes those of its cluster.
TAGS are up to 8 words with commas between them, ascending, each of 1 to 64 characters without , [ and ].
If the first begins with -, give them as --tags=TAGS.

A node acts by itself at its ticks alone. It asks to be let in, reports and votes. At every tenth tick
it probes those that it observes. With --tick-ms 0, the default, only the lines tick make it tick. Such
a member neither notices crashes nor takes part in removing them, and may hold up its whole
cluster. For anything but driving nodes by hand give all nodes of a cluster the same number, such as
--tick-ms 100.

SIGTERM, SIGINT and SIGHUP are not caught: each ends the node at once, by the signal. The other members
notice it as a crash. The end of standard input ends the node too, so keep it open while it should run.

Status: 0 at the end of the input, after quit and after help, 1 if standard input or output failed or
the port cannot be bound, 2 if the words were refused, 3 if memory ran out, the node has halted or its
journal is full.";
