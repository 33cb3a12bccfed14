// The texts that the program prints of itself.
/// What `--help` prints.
pub const HELP: &str = "\
mixedrun runs programs that mix 68K and PowerPC code.

usage: mixedrun run FILES [main=68k|ppc] [ram=KIB] [steps=N] [save=IMAGE]
       mixedrun continue image=IMAGE [steps=N] [save=IMAGE]
       mixedrun list FILES at=ADDRESS count=N [main=68k|ppc] [ram=KIB]
       mixedrun sample n=N depth=D
       mixedrun assemble set=68k|ppc text=FILE at=ADDRESS
       mixedrun debug FILES script=FILE [main=68k|ppc] [ram=KIB]

FILES is flat=FILE, rsrc=FILE, pef=FILE, or rsrc=FILE pef=FILE.

  flat=FILE   a flat image, put at address $10000 and started there
  rsrc=FILE   a resource fork with CODE segments of 68K code
  pef=FILE    a container of PowerPC code
  main=SET    the set of the main program, 68k or ppc
              (default: 68k where flat or rsrc is given, else ppc)
  ram=KIB     the size of RAM, 128 to 16384 KiB (default 1024)
  steps=N     how many steps are done at most, 0 to 4294967295
              (default 1000000)
  save=IMAGE  where the machine is kept if all these steps were done
  image=IMAGE a machine that was kept, to run on from there
  at=ADDRESS  where a listing or a text begins, in eight upper-case
              hexadecimal digits
  count=N     how many instructions it has at most, 1 to 4096
  n=N         how many calls the sample makes, 1 to 1000
  depth=D     how deep each of them goes, 1 to 300
  set=SET     the set of the instructions of a text, 68k or ppc
  text=FILE   a text of lines to assemble, as list writes them
  script=FILE the commands of a debugger, one a line: step N, over N, go N,
              back N, break ADDRESS, clear ADDRESS, where

run runs a program; continue runs a machine on that was kept; list writes a
program's instructions as text, a line for each; sample runs a program of its
own whose 68K and PowerPC code call each other, and counts what crosses;
assemble writes the bytes of a text's instructions, or nothing where a line is
refused; debug does the commands of a script over a program, steps forward and
back among them. The words stand in any order behind the command. Beside a flat
file stands no other of a program; main=68k needs a flat file or a fork, and
main=ppc a flat file or a container.

Input comes from standard input, output goes to standard output, and the trace
of calls, returns, device asks and the end goes to standard error. Slot 0 holds
a counter and slot 1 a tape.

Status:
  0, 1    the program ended with code 0, or with another code
  2       bad words                    3       the program was not loaded,
                                               or an image or a line refused
  4       a file was not read          5       the input failed
  6       the output failed            7       the trace failed
  8       the machine was not kept     9       there was no memory
  10      a fault                      11      all steps were done

Examples:
  mixedrun run flat=samples/hello.bin
  mixedrun run rsrc=program.rsrc pef=program.pef main=ppc ram=4096 steps=50000
  mixedrun run flat=program.bin steps=50000 save=program.image
  mixedrun continue image=program.image
  mixedrun list flat=samples/hello.bin at=00010000 count=4
  mixedrun debug flat=samples/debug/price.bin script=samples/debug/script

The folder docs/ says what the machine is and what the lines of the trace mean.
";

/// What `--version` prints.
pub const VERSION: &str = "mixedrun 0.1.0\n";
