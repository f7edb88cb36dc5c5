//! The definitions at an example.

ghost use Rattle.std.specs.Prelude.{◌≡◌, codes, true};
ghost use Rattle.replica.specs.Objects.{object_text};
ghost use Rattle.replica.specs.Chosen.{is_shared, chosen_lines};
ghost use Rattle.replica.specs.Example.{example};
ghost use Rattle.replica.specs.ObjectLines.{lines_of};
ghost use Rattle.replica.specs.Drawing.{drawing};
ghost use Rattle.replica.specs.ChartExample.{example_rows, ask_all};

/// The definitions at an example: the lines of seven touches of object 3 where a block has 64 bytes. Thread 3 made
/// version 2, and neither read nor made version 1; the write that made version 4 is not known.
pub fn example_has_these_lines()
    ensures lines { chosen_lines (object_text 6) 3 example ≡ codes "object 3: bytes 64..127\n3@0 read by 0.1 1.0\n3@1 written by 0.2 read by 1.1 2.4\n3@2 written by 3.0 unread\n3@4 write unknown read by 3.5\n" }
    ensures shared { is_shared example ≡ true }
{}

/// The definitions at an example: the picture of three rows that touch object 3, behind which two known accesses have no
/// row. Thread 1 made version 1, which thread 0 read, and thread 2, which had not read it, wrote over it.
pub fn example_is_drawn_so()
    ensures { drawing (lines_of ask_all example_rows) 2 ≡ codes "<svg xmlns=\"http://www.w3.org/2000/svg\" font-family=\"monospace\" font-size=\"12\" width=\"840\" height=\"150\">\n<defs><marker id=\"head\" markerWidth=\"9\" markerHeight=\"8\" refX=\"14\" refY=\"4\" orient=\"auto\"><path d=\"M0,0 L9,4 L0,8 Z\" fill=\"steelblue\"/></marker></defs>\n<style>text{stroke:white;stroke-width:3px;paint-order:stroke}</style>\n<rect width=\"100%\" height=\"100%\" fill=\"white\"/>\n<line x1=\"20\" y1=\"30\" x2=\"20\" y2=\"110\" stroke=\"lightgray\"/>\n<text x=\"20\" y=\"20\">thread 0</text>\n<line x1=\"220\" y1=\"30\" x2=\"220\" y2=\"110\" stroke=\"lightgray\"/>\n<text x=\"220\" y=\"20\">thread 1</text>\n<line x1=\"420\" y1=\"30\" x2=\"420\" y2=\"110\" stroke=\"lightgray\"/>\n<text x=\"420\" y=\"20\">thread 2</text>\n<line x1=\"220\" y1=\"50\" x2=\"20\" y2=\"70\" stroke=\"steelblue\" marker-end=\"url(#head)\"/>\n<line x1=\"220\" y1=\"50\" x2=\"420\" y2=\"90\" stroke=\"steelblue\" marker-end=\"url(#head)\"/>\n<circle cx=\"220\" cy=\"50\" r=\"4\" fill=\"black\" stroke=\"black\"/>\n<text x=\"238\" y=\"54\">1.0 write 3@1</text>\n<circle cx=\"20\" cy=\"70\" r=\"4\" fill=\"white\" stroke=\"black\"/>\n<text x=\"38\" y=\"74\">0.0 read 3@1</text>\n<circle cx=\"420\" cy=\"90\" r=\"4\" fill=\"red\" stroke=\"red\"/>\n<text x=\"438\" y=\"94\">2.0 write 3@2 <tspan fill=\"red\">unread</tspan></text>\n<text x=\"10\" y=\"134\" fill=\"gray\">2 more accesses: what they met is not known</text>\n</svg>\n" }
{}
