// What designs sources give: their names, their numbers, and that they are well formed. No command shows a design.
use crate::sources::made;
use mh_design::{Design, well_formed};
use mh_text::put_number;
use std::alloc::Global;
use std::test::Fail;

/// What is shown of a design: its name and line, the numbers of its ports, the paths of its signals,
/// its memories with their elements and lines, its tables, its generators with their lines, and the
/// parameters that are lists of signals.
fn shown(alloc: Global, d: &Design) -> Result<Vec<u8>, Fail> {
    let mut out = Vec::new(alloc);
    out.extend_from_slice(d.name.bytes())?;
    put(&mut out, " ", d.line as i128)?;
    out.extend_from_slice(b" ports")?;
    for n in d.ports.as_slice() {
        put(&mut out, " ", *n as i128)?;
    }
    out.extend_from_slice(b" signals")?;
    for s in d.signals.as_slice() {
        word(&mut out, s.path.bytes())?;
    }
    show_indexed(&mut out, d)?;
    out.extend_from_slice(b" generators")?;
    for g in d.generators.as_slice() {
        word(&mut out, g.path.bytes())?;
        put(&mut out, ":", g.line as i128)?;
    }
    out.extend_from_slice(b" listed")?;
    for t in d.listed.as_slice() {
        word(&mut out, t.bytes())?;
    }
    Ok(out)
}

fn show_indexed(out: &mut Vec<u8>, d: &Design) -> Result<(), Fail> {
    for m in d.mems.as_slice() {
        out.extend_from_slice(b" mem ")?;
        out.extend_from_slice(m.path.bytes())?;
        put(out, ":", m.line as i128)?;
        for n in m.cells.as_slice() {
            put(out, ",", *n as i128)?;
        }
    }
    for t in d.tables.as_slice() {
        out.extend_from_slice(b" table ")?;
        out.extend_from_slice(t.path.bytes())?;
        for z in t.values.as_slice() {
            put(out, ",", *z)?;
        }
    }
    Ok(())
}

fn put(out: &mut Vec<u8>, before: &str, n: i128) -> Result<(), Fail> {
    out.extend_from_slice(before.as_bytes())?;
    put_number(out, n)?;
    Ok(())
}

fn word(out: &mut Vec<u8>, t: &[u8]) -> Result<(), Fail> {
    out.push(b' ')?;
    out.extend_from_slice(t)?;
    Ok(())
}

/// Whole designs, as they are shown: of each, the first.
const DESIGNS: &[(&str, &str)] = &[
    (
        "from myhdl import *\n\n@block\ndef gate(y, a, b):\n    @always_comb\n    def logic():\n        y.next = a & b\n    return logic\ny = Signal(bool(0))\na = Signal(bool(0))\nb = Signal(bool(0))\ng = gate(y, a, b)\ng.convert(hdl='Verilog')\n",
        "gate 4 ports 0 1 2 signals y a b generators logic:6 listed",
    ),
    (
        "from myhdl import *\n@block\ndef bench():\n    clk = Signal(bool(0))\n    q = Signal(intbv(0, min=0, max=10))\n    @always(delay(5))\n    def drive():\n        clk.next = not clk\n    @always(clk.posedge)\n    def step():\n        q.next = q + 1\n    return drive, step\nb = bench()\nb.run_sim(200)\n",
        "bench 3 ports signals clk q generators drive:7 step:10 listed",
    ),
    (
        "from myhdl import *\n@block\ndef stage(q, d, k, clk):\n    t = Signal(intbv(0)[8:])\n    @always_comb\n    def mix():\n        t.next = (d ^ q + k) & 255\n    @always(clk.posedge)\n    def keep():\n        q.next = t\n    return mix, keep\n@block\ndef chain(y, x, clk):\n    w = [Signal(intbv(0)[8:]) for i in range(3)]\n    p = [stage(w[0], x, 0, clk)]\n    for i in range(1, 3):\n        p.append(stage(w[i], w[i - 1], i, clk))\n    last = w[2]\n    @always_comb\n    def out():\n        y.next = last\n    return instances()\ny = Signal(intbv(0)[8:])\nx = Signal(intbv(0)[8:])\nclk = Signal(bool(0))\nc = chain(y, x, clk)\nc.convert(hdl='Verilog')\n",
        "chain 13 ports 0 1 2 signals y x clk w_0 w_1 w_2 stage_t stage_t stage_t generators stage_mix:6 stage_keep:9 stage_mix:6 stage_keep:9 stage_mix:6 stage_keep:9 out:20 listed",
    ),
    (
        "from myhdl import *\n@block\ndef top(reg, Out, out):\n    @always_comb\n    def g1():\n        Out.next = 1\n    @always_comb\n    def g2():\n        reg.next = 1\n    @always_comb\n    def g3():\n        out.next = 1\n    return [g2, g1, g2]\np = Signal(bool(0))\no = Signal(bool(0))\nt = top(p, o, o)\nt.run_sim()\n",
        "top 3 ports 0 1 1 signals reg Out generators g2:8 g1:5 listed",
    ),
    (
        "from myhdl import *\n@block\ndef leaf(q):\n    @always_comb\n    def one():\n        q.next = 1\n    return [one]\nm = Signal(bool(0))\n@block\ndef top(y):\n    w = [[Signal(bool(0)), Signal(bool(0))], [Signal(bool(0)), Signal(bool(0))]]\n    u = w[1][0]\n    @always_comb\n    def g():\n        u.next = 1\n    @always_comb\n    def h():\n        m.next = 1\n    s1 = leaf(Signal(bool(0)))\n    p = [leaf(Signal(bool(0)))]\n    return instances()\ny = Signal(bool(0))\nt = top(y)\nt.run_sim()\n",
        "top 10 ports 0 signals y m w_1_0 s1_q leaf_q generators g:14 h:17 s1_one:5 leaf_one:5 listed",
    ),
    (
        "from myhdl import *\n@block\ndef leaf(q):\n    own = Signal(bool(0))\n    @always_comb\n    def one():\n        own.next = 1\n    return [one]\nm = Signal(bool(0))\nl = leaf(m)\n@block\ndef wrap(i):\n    w = []\n    w.append(Signal(bool(0)))\n    u = w[0]\n    @always_comb\n    def g():\n        u.next = 1\n    return [g, i]\n@block\ndef top():\n    a1 = wrap(l)\n    a2 = wrap(l)\n    return [a2, a1]\nt = top()\nt.run_sim()\n",
        "top 21 ports signals own a1_w_0 a2_w_0 generators a2_g:17 one:6 a1_g:17 listed",
    ),
    (
        "from myhdl import *\nm = Signal(bool(0))\n@block\ndef top(w, y=m):\n    @always_comb\n    def g():\n        y.next = 1\n    return [g]\nt1 = top([Signal(bool(0))])\nt1.convert()\n",
        "top 4 ports 0 signals y generators g:6 listed w",
    ),
    (
        "from myhdl import *\n@block\ndef leaf(q):\n    @always_comb\n    def one():\n        q.next = 1\n    return [one]\n@block\ndef top(p, q, r):\n    a = leaf(p)\n    b = leaf(q)\n    a = leaf(r)\n    c = b\n    return instances()\nt = top(Signal(bool(0)), Signal(bool(0)), Signal(bool(0)))\nt.run_sim()\n",
        "top 9 ports 0 1 2 signals p q r generators a_one:5 b_one:5 listed",
    ),
    (
        "from myhdl import *\ndef make(y):\n    own = Signal(bool(0))\n    @always_comb\n    def g():\n        own.next = 1\n    return g\n@block\ndef top(y):\n    @block\n    def inner():\n        @always_comb\n        def h():\n            y.next = 1\n        return [h]\n    i = inner()\n    k = make(y)\n    return instances()\nt = top(Signal(bool(0)))\nt.run_sim()\n",
        "top 9 ports 0 signals y own generators i_h:13 g:5 listed",
    ),
    (
        "from myhdl import *\nspare = [Signal(bool(0)), Signal(bool(0))]\nmem = [Signal(bool(0)), Signal(bool(0))]\na = (5, 6)\n@block\ndef top(m, y, n):\n    tab = (7, 8, 9)\n    @always_comb\n    def g():\n        y.next = m[n] & (tab[n] > 3)\n    @always_comb\n    def h():\n        m[n].next = a[n]\n    return g, h\nn = Signal(intbv(0)[1:])\ny = Signal(bool(0))\nt = top(mem, y, n)\nt.convert()\n",
        "top 6 ports 0 1 signals y n mem_0 mem_1 mem mem:3,2,3 table tab,7,8,9 table a,5,6 generators g:9 h:12 listed m",
    ),
];

#[test]
fn designs_are_named_and_numbered(rt: HostRuntime) -> Result<(), Fail> {
    let alloc = rt.alloc();
    for (source, want) in DESIGNS {
        let x = made(alloc, source.as_bytes())?;
        match x.tops.get(0) {
            Some(d) => {
                let out = shown(alloc, d)?;
                assert!(rt; out.as_slice() == want.as_bytes(), "{source}");
                assert!(rt; well_formed(d), "{source}");
            }
            None => assert!(rt; false, "{source}"),
        }
    }
    Ok(())
}
