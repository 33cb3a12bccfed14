// Talks with a server over a machine that stands still: what gdb sends, and what it gets for it. Sums and texts are by hand,
// from gdb's manual.
use crate::still::Still;
use gdb_session::serve;
use mix_io::{MemSink, MemSource};
use std::alloc::Global;
use std::process::Abort;

/// A packet, and what is sent for it.
type Row = (&'static [u8], &'static [u8]);

/// A gdb that knows no processes.
const ALONE: [Row; 33] = [
    (
        b"$qSupported:swbreak+;hwbreak+#d5",
        b"+$PacketSize=4000;QStartNoAckMode+;qXfer:features:read+;ReverseStep+;ReverseContinue+;swbreak+;hwbreak+;vContSupported+#1f",
    ),
    (b"$vMustReplyEmpty#3a", b"+$#00"),
    (b"$!#21", b"+$OK#9a"),
    (b"$?#3f", b"+$T05thread:1;#d7"),
    (b"$Hg0#df", b"+$OK#9a"),
    (b"$Hc-1#09", b"+$OK#9a"),
    (b"$Hg1#e0", b"+$OK#9a"),
    (b"$Hg2#e1", b"+$E01#a6"),
    (b"$qC#b4", b"+$QC1#c5"),
    (b"$qAttached#8f", b"+$1#31"),
    (b"$qfThreadInfo#bb", b"+$m1#9e"),
    (b"$qsThreadInfo#c8", b"+$l#6c"),
    (
        b"$g#67",
        b"+$000000000102030400000000000000000000000000000000000000000000000000000000000000000000000000000000000000000000000000000000000000000000000500010000#10",
    ),
    (b"$p1#a1", b"+$01020304#8a"),
    (b"$p10#d1", b"+$00000005#85"),
    (b"$p12#d3", b"+$E01#a6"),
    (b"$m1fffe,4#95", b"+$abcd#8a"),
    (b"$m20000,4#bf", b"+$E01#a6"),
    (b"$qXfer:features:read:target.xml:0,5#80", b"+$m<?xml#39"),
    (b"$vCont?#49", b"+$vCont;c;C;s;S#62"),
    (b"$Z0,10000,2#05", b"+$OK#9a"),
    (b"$z0,10000,2#25", b"+$OK#9a"),
    (b"$Z2,2000,4#da", b"+$OK#9a"),
    (b"$Z3,2000,4#db", b"+$#00"),
    (b"$G00#a7", b"+$E01#a6"),
    (b"$P1=00000000#3e", b"+$E01#a6"),
    (b"$M2000,1:00#06", b"+$E01#a6"),
    (b"$X2000,0:#b0", b"+$E01#a6"),
    (b"$T1#85", b"+$OK#9a"),
    (b"$T2#86", b"+$E01#a6"),
    (b"$qTStatus#49", b"+$#00"),
    (b"$qSymbol::#5b", b"+$#00"),
    (b"$qOffsets#4b", b"+$#00"),
];

/// A gdb that knows processes.
const PROCESSES: [Row; 14] = [
    (
        b"$qSupported:multiprocess+;swbreak+#1b",
        b"+$PacketSize=4000;QStartNoAckMode+;qXfer:features:read+;ReverseStep+;ReverseContinue+;swbreak+;hwbreak+;vContSupported+;multiprocess+#af",
    ),
    (b"$?#3f", b"+$T05thread:p1.1;#a6"),
    (b"$qfThreadInfo#bb", b"+$mp1.1#6d"),
    (b"$Hgp2.2#b1", b"+$E01#a6"),
    (b"$vAttach;2#38", b"+$T05thread:p2.2;#a8"),
    (b"$qfThreadInfo#bb", b"+$mp1.1,p2.2#9b"),
    (
        b"$g#67",
        b"+$0000000000000000000000000000000000000000000000000000000000000000000000000000000000000000000000000000000000000000000000000000000000000000000000000000000000000000000000000000000000000000000000000000000000000000000000000000000000000000000000000000000000000000000000000000000000000000000000000000000000000000#00",
    ),
    (b"$p40#d4", b"+$00000000#80"),
    (b"$Hgp1.1#af", b"+$OK#9a"),
    (
        b"$g#67",
        b"+$000000000102030400000000000000000000000000000000000000000000000000000000000000000000000000000000000000000000000000000000000000000000000500010000#10",
    ),
    (b"$qC#b4", b"+$QCp1.1#94"),
    (b"$D;2#b1", b"+$OK#9a"),
    (b"$qfThreadInfo#bb", b"+$mp1.1#6d"),
    (b"$D;1#b0", b"+$OK#9a"),
];

fn check(rt: &impl Abort, alloc: Global, rows: &[Row]) {
    let mut asked = Vec::new(alloc);
    let mut wanted = Vec::new(alloc);
    for (packet, answer) in rows {
        asked.extend_from_slice(packet).expect(rt, "no memory");
        wanted.extend_from_slice(answer).expect(rt, "no memory");
    }
    check_bytes(rt, alloc, asked, &wanted);
}

fn check_bytes(rt: &impl Abort, alloc: Global, asked: Vec<u8>, wanted: &[u8]) {
    let target = Still::new(alloc).expect(rt, "no machine");
    let mut input = MemSource::new(asked, Vec::new(alloc));
    let mut out = MemSink::new(alloc, 65_536, Vec::new(alloc)).expect(rt, "no sink");
    let result = serve(alloc, target, &mut input, &mut out);
    assert!(rt; result.is_ok());
    assert!(rt; out.held() == wanted);
}

fn bytes(rt: &impl Abort, alloc: Global, text: &[u8]) -> Vec<u8> {
    let mut bytes = Vec::new(alloc);
    bytes.extend_from_slice(text).expect(rt, "no memory");
    bytes
}

#[test]
fn a_gdb_without_processes_is_answered(rt: HostRuntime) {
    check(&rt, rt.alloc(), &ALONE);
}

#[test]
fn a_gdb_with_processes_is_answered(rt: HostRuntime) {
    check(&rt, rt.alloc(), &PROCESSES);
}

#[test]
fn steps_and_ends_are_told(rt: HostRuntime) {
    let alloc = rt.alloc();
    check_bytes(
        &rt,
        alloc,
        bytes(&rt, alloc, b"$s#73"),
        b"+$O68690a#bd$T05thread:1;#d7",
    );
    check_bytes(
        &rt,
        alloc,
        bytes(&rt, alloc, b"$bc#c5$c#63$c#63"),
        b"+$T05thread:1;replaylog:begin;#20+$T05thread:1;replaylog:end;#52+$W02#b9",
    );
}

#[test]
fn sums_and_acknowledgements_are_kept(rt: HostRuntime) {
    let alloc = rt.alloc();
    check_bytes(
        &rt,
        alloc,
        bytes(&rt, alloc, b"+$g#00$qC#b4-"),
        b"-+$QC1#c5$QC1#c5",
    );
    check_bytes(
        &rt,
        alloc,
        bytes(&rt, alloc, b"$QStartNoAckMode#b0+$qC#b4$qC#00"),
        b"+$OK#9a$QC1#c5",
    );
    check_bytes(
        &rt,
        alloc,
        bytes(
            &rt,
            alloc,
            b"$qRcmd,627564676574203132#cf$qRcmd,68656c70#fc$k#6b$g#67",
        ),
        b"+$O627564676574203132#fb$OK#9a+$O68656c70#28$OK#9a+",
    );
}

/// A talk, and what is sent for it.
const TALK: &[u8] = b"$qSupported:swbreak+#8b$?#3f$g#67$s#73$mX#c5";

const SAID: &[u8] =
    b"+$PacketSize=4000;QStartNoAckMode+;qXfer:features:read+;ReverseStep+;ReverseContinue+;swbreak+;hwbreak+;vContSupported+#1f+$T05thread:1;#d7+$000000000102030400000000000000000000000000000000000000000000000000000000000000000000000000000000000000000000000000000000000000000000000500010000#10+$O68690a#bd$T05thread:1;swbreak:;#3b+$#00";

/// What is sent for a talk that ends early.
fn sent_for(rt: &impl Abort, alloc: Global, asked: Vec<u8>) -> MemSink {
    let target = Still::new(alloc).expect(rt, "no machine");
    let mut input = MemSource::new(asked, Vec::new(alloc));
    let mut out = MemSink::new(alloc, 65_536, Vec::new(alloc)).expect(rt, "no sink");
    let result = serve(alloc, target, &mut input, &mut out);
    assert!(rt; result.is_ok());
    out
}

#[test]
fn a_talk_that_is_cut_says_a_beginning(rt: HostRuntime) {
    let alloc = rt.alloc();
    for end in 0..TALK.len() + 1 {
        let sent = sent_for(&rt, alloc, bytes(&rt, alloc, &TALK[..end]));
        assert!(&rt; SAID.starts_with(sent.held()));
    }
    let sent = sent_for(&rt, alloc, bytes(&rt, alloc, TALK));
    assert!(&rt; SAID == sent.held());
}

#[test]
fn any_bytes_are_survived(rt: HostRuntime) {
    let alloc = rt.alloc();
    let mut asked = Vec::new(alloc);
    let mut seed: u32 = 1994;
    for _ in 0..100_000 {
        seed = seed.wrapping_mul(1_664_525).wrapping_add(1_013_904_223);
        asked
            .push((seed / 0x100_0000) as u8)
            .expect(&rt, "no memory");
    }
    let _sent = sent_for(&rt, alloc, asked);
}
