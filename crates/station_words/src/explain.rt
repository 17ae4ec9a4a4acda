//! What the program says of itself: the texts of `--help` and `--version`.
ghost use Rattle.std.specs.Prelude.{◌≡◌};
ghost use Rattle.station_words.specs.Explain.{help_text, version_line};

/// The text of `--help`: the commands, the options of `serve` and the statuses.
pub fn help() -> &'static str
    ensures { result.now ≡ help_text }
{
    concat!(
        "bmpstation: a station for the BGP Monitoring Protocol (RFC 7854)\n",
        "\n",
        "usage: bmpstation COMMAND\n",
        "\n",
        "  replay [--lenient] QUERY   a query's reply on the stream on standard input\n",
        "  check [--lenient]          how many messages of each type that stream has\n",
        "  serve OPTIONS              routers and clients side by side, over TCP\n",
        "  drill SEED LANES MESSAGES  lanes over made streams, and what they come to\n",
        "  relay [--lenient]          the BMP stream that rebuilds what that stream left\n",
        "  rov [--lenient] FILE P     whether the VRPs in FILE allow each route within P\n",
        "  archive [--lenient] FILE   keep that stream in FILE, which is new or empty\n",
        "  recall [--lenient] FILE Q  the reply of query Q on the stream kept in FILE\n",
        "  --check-options WORDS      tell by the status whether WORDS are a command\n",
        "  --help, -h                 this text\n",
        "  --version, -V              which version this is\n",
        "\n",
        "options of serve, in any order, as --name VALUE or --name=VALUE (or else):\n",
        "\n",
        "  --feeds N                  so many routers at once, from 1 to 1024 (64)\n",
        "  --askers M                 so many clients at once, from 1 to 1024 (16)\n",
        "  --feed-port P              routers connect to port P, or from P on (11019)\n",
        "  --ask-port Q               clients connect to port Q, or from Q on (11120)\n",
        "  --rounds K                 connections of each place: 1 to 4096 (forever)\n",
        "  --address A                listen at this address (127.0.0.1)\n",
        "  --ask-address A            listen for clients at this one (as --address)\n",
        "  --ports each|shared        a port for each router and client (each), or one\n",
        "                             port for all routers and one for all clients\n",
        "                             (shared; each where the first five are given)\n",
        "  --idle S                   close a router's connection that says nothing for\n",
        "                             S seconds, from 1 to 86400 (never)\n",
        "  --ask-idle S               the same of a client's\n",
        "  --log WHAT                 who comes and goes, on standard error: none,\n",
        "                             routers, or clients too (routers)\n",
        "  --feed-from P,P,..         routers connect from within these prefixes alone,\n",
        "                             32 at most (from anywhere)\n",
        "  --ask-from P,P,..          the same of clients\n",
        "  --lenient                  read what FRR and GoBGP send beside the RFCs\n",
        "\n",
        "statuses: 0 done, 1 the stream stopped early, 2 usage, 3 a read failed,\n",
        "4 a write failed, 5 out of memory, 6 no input, port or FILE can be had,\n",
        "8 what that stream left can't be relayed, 9 FILE is too long or of another form,\n",
        "10 FILE is no archive, or not empty, 11 the disk failed, 12 the archive is full\n",
        "\n",
        "The manual is bmpstation(1); bmpstation-query(7) has the queries.\n",
    )
}

/// The line of `--version`. `packaging/version` has the same number.
pub fn version() -> &'static str
    ensures { result.now ≡ version_line }
{
    "bmpstation 0.1.0\n"
}
