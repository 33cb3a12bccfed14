ghost use Rattle.std.specs.Prelude.{◌≡◌};
ghost use Rattle.gdb_answers.specs.Descriptions.{description_of};

use mix_bits::Isa;

/// The description of a process's registers, in the order in which `g` tells them
/// (GDB manual, appendix 'Target Descriptions').
pub fn description(set: Isa) -> &'static [u8]
    ensures { result.now ≡ description_of set }
{
    match set {
        Isa::M68 => description_68k(),
        Isa::Ppc => description_ppc(),
    }
}

fn description_68k() -> &'static [u8]
    ensures { result.now ≡ description_of Isa.M68 }
{
    b"\
    <?xml version=\"1.0\"?><!DOCTYPE target SYSTEM \"gdb-target.dtd\"><target>\
    <architecture>m68k:68000</architecture>\
    <feature name=\"org.gnu.gdb.m68k.core\">\
    <reg name=\"d0\" bitsize=\"32\"/>\
    <reg name=\"d1\" bitsize=\"32\"/>\
    <reg name=\"d2\" bitsize=\"32\"/>\
    <reg name=\"d3\" bitsize=\"32\"/>\
    <reg name=\"d4\" bitsize=\"32\"/>\
    <reg name=\"d5\" bitsize=\"32\"/>\
    <reg name=\"d6\" bitsize=\"32\"/>\
    <reg name=\"d7\" bitsize=\"32\"/>\
    <reg name=\"a0\" bitsize=\"32\" type=\"data_ptr\"/>\
    <reg name=\"a1\" bitsize=\"32\" type=\"data_ptr\"/>\
    <reg name=\"a2\" bitsize=\"32\" type=\"data_ptr\"/>\
    <reg name=\"a3\" bitsize=\"32\" type=\"data_ptr\"/>\
    <reg name=\"a4\" bitsize=\"32\" type=\"data_ptr\"/>\
    <reg name=\"a5\" bitsize=\"32\" type=\"data_ptr\"/>\
    <reg name=\"fp\" bitsize=\"32\" type=\"data_ptr\"/>\
    <reg name=\"sp\" bitsize=\"32\" type=\"data_ptr\"/>\
    <reg name=\"ps\" bitsize=\"32\"/>\
    <reg name=\"pc\" bitsize=\"32\" type=\"code_ptr\"/>\
    </feature></target>"
}

fn description_ppc() -> &'static [u8]
    ensures { result.now ≡ description_of Isa.Ppc }
{
    b"\
    <?xml version=\"1.0\"?><!DOCTYPE target SYSTEM \"gdb-target.dtd\"><target>\
    <architecture>powerpc:601</architecture>\
    <feature name=\"org.gnu.gdb.power.core\">\
    <reg name=\"r0\" bitsize=\"32\"/>\
    <reg name=\"r1\" bitsize=\"32\"/>\
    <reg name=\"r2\" bitsize=\"32\"/>\
    <reg name=\"r3\" bitsize=\"32\"/>\
    <reg name=\"r4\" bitsize=\"32\"/>\
    <reg name=\"r5\" bitsize=\"32\"/>\
    <reg name=\"r6\" bitsize=\"32\"/>\
    <reg name=\"r7\" bitsize=\"32\"/>\
    <reg name=\"r8\" bitsize=\"32\"/>\
    <reg name=\"r9\" bitsize=\"32\"/>\
    <reg name=\"r10\" bitsize=\"32\"/>\
    <reg name=\"r11\" bitsize=\"32\"/>\
    <reg name=\"r12\" bitsize=\"32\"/>\
    <reg name=\"r13\" bitsize=\"32\"/>\
    <reg name=\"r14\" bitsize=\"32\"/>\
    <reg name=\"r15\" bitsize=\"32\"/>\
    <reg name=\"r16\" bitsize=\"32\"/>\
    <reg name=\"r17\" bitsize=\"32\"/>\
    <reg name=\"r18\" bitsize=\"32\"/>\
    <reg name=\"r19\" bitsize=\"32\"/>\
    <reg name=\"r20\" bitsize=\"32\"/>\
    <reg name=\"r21\" bitsize=\"32\"/>\
    <reg name=\"r22\" bitsize=\"32\"/>\
    <reg name=\"r23\" bitsize=\"32\"/>\
    <reg name=\"r24\" bitsize=\"32\"/>\
    <reg name=\"r25\" bitsize=\"32\"/>\
    <reg name=\"r26\" bitsize=\"32\"/>\
    <reg name=\"r27\" bitsize=\"32\"/>\
    <reg name=\"r28\" bitsize=\"32\"/>\
    <reg name=\"r29\" bitsize=\"32\"/>\
    <reg name=\"r30\" bitsize=\"32\"/>\
    <reg name=\"r31\" bitsize=\"32\"/>\
    <reg name=\"pc\" bitsize=\"32\" type=\"code_ptr\"/>\
    <reg name=\"msr\" bitsize=\"32\"/>\
    <reg name=\"cr\" bitsize=\"32\"/>\
    <reg name=\"lr\" bitsize=\"32\" type=\"code_ptr\"/>\
    <reg name=\"ctr\" bitsize=\"32\"/>\
    <reg name=\"xer\" bitsize=\"32\"/>\
    </feature></target>"
}
