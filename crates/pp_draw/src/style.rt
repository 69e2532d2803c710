//! What a picture's classes look like, in light and in dark.

/// The classes. Only regions have hues, those of Okabe and Ito and three more, which people with a colour weakness tell apart;
/// and the red of a plan that is gone, which nothing else has. All else is told by shades, outlines and patterns. Each colour that
/// follows the reader's choice of light or dark stands behind a plain one, for programs that know no such choice.
pub(crate) const STYLE: &str = "<style>\n\
svg{--ink:#1b1b1b;--soft:#5f5f5f;--ground:#fff;--lane:#f1f1f1;--plan:#cfcfcf;--gone:#d1402b;\
--t1:#474747;--t2:#7b7b7b;--b1:#adadad;--b2:#d6d6d6;background:#fff;background:var(--ground)}\n\
text{fill:#1b1b1b;fill:var(--ink);font:160px sans-serif}.c{font-size:110px}.i{font-size:110px}\n\
.s{fill:#5f5f5f;fill:var(--soft)}.b{font-weight:bold}.e{text-anchor:end}.m{text-anchor:middle}\n\
.y{fill:#fff;fill:var(--ground)}.l{fill:#f1f1f1;fill:var(--lane)}\n\
.p{fill:#cfcfcf;fill:var(--plan);stroke:#1b1b1b;stroke:var(--ink);stroke-width:8}\n\
.g{fill:#d1402b;fill:var(--gone);stroke:#1b1b1b;stroke:var(--ink);stroke-width:8}\n\
.z{fill:none;stroke:#5f5f5f;stroke:var(--soft);stroke-width:10}\n\
.o{fill:url(#w)}.h{fill:url(#h)}.n{fill:url(#n)}.w{fill:url(#i)}.x{fill:#1b1b1b;fill:var(--ink)}\n\
.k{fill:none;stroke:#1b1b1b;stroke:var(--ink);stroke-width:14}\n\
.w1{fill:none;stroke:#1b1b1b;stroke:var(--ink);stroke-width:16}\n\
.r{stroke:#fff;stroke:var(--ground);stroke-width:10}.r0{fill:#56b4e9}.r1{fill:#e69f00}.r2{fill:#009e73}.r3{fill:#f0e442}\n\
.r4{fill:#3b8fd0}.r5{fill:#a982e0}.r6{fill:#cc79a7}.r7{fill:#b08a5a}\n\
.a0{fill:#474747;fill:var(--t1)}.a1{fill:#7b7b7b;fill:var(--t2)}.a2{fill:#adadad;fill:var(--b1)}.a3{fill:#d6d6d6;fill:var(--b2)}\n\
.t{fill:none;stroke:#1b1b1b;stroke:var(--ink);stroke-width:36}.q{fill:none;stroke:#fff;stroke:var(--ground);stroke-width:16}\n\
.d{fill:none;stroke:#1b1b1b;stroke:var(--ink);stroke-width:20}.v{fill:none;pointer-events:all}\n\
.u{pointer-events:none}.j{fill:#000;stroke:#fff;stroke-width:30;paint-order:stroke}\n\
@media(prefers-color-scheme:dark){svg{--ink:#f0f0f0;--soft:#b0b0b0;--ground:#151515;--lane:#262626;--plan:#515151;--gone:#e0604a;\
--t1:#dcdcdc;--t2:#a9a9a9;--b1:#767676;--b2:#474747}}\n\
@media(max-width:700px){text{font-size:270px}.i{font-size:120px}.f{display:none}}\n\
</style>\n\
<defs>\n\
<pattern id=\"h\" width=\"50\" height=\"50\" patternUnits=\"userSpaceOnUse\">\
<path d=\"M0 50L50 0M-10 10L10 -10M40 60L60 40\" stroke=\"#000\" stroke-width=\"11\"/></pattern>\n\
<pattern id=\"w\" width=\"60\" height=\"60\" patternUnits=\"userSpaceOnUse\">\
<path d=\"M0 0L60 60M-10 50L10 70M50 -10L70 10\" stroke=\"#000\" stroke-width=\"14\"/></pattern>\n\
<pattern id=\"n\" width=\"60\" height=\"60\" patternUnits=\"userSpaceOnUse\">\
<circle cx=\"15\" cy=\"15\" r=\"11\"/><circle cx=\"45\" cy=\"45\" r=\"11\"/></pattern>\n\
<pattern id=\"i\" width=\"60\" height=\"60\" patternUnits=\"userSpaceOnUse\">\
<path class=\"w1\" d=\"M15 0V60M45 0V60\"/></pattern>\n\
</defs>\n";
