// The edges of cutting: a text, and the last line of its plain listing.
pub struct Edge {
    pub what: &'static str,
    pub text: &'static [u8],
    pub last: &'static str,
}

pub const EDGES: [Edge; 57] = [
    Edge {
        what: "nothing",
        text: b"",
        last: "cut\t0",
    },
    Edge {
        what: "a header alone",
        text: b"UNA:+.? '",
        last: "cut\t0",
    },
    Edge {
        what: "a header and line breaks",
        text: b"UNA:+.? '\r\n\n",
        last: "cut\t0",
    },
    Edge {
        what: "a header of eight bytes",
        text: b"UNA:+.? ",
        last: "stopped\t1\t0\t0\t0",
    },
    Edge {
        what: "three bytes of a header",
        text: b"UNA",
        last: "stopped\t1\t0\t0\t0",
    },
    Edge {
        what: "no space before the terminator",
        text: b"UNA:+.?*'",
        last: "stopped\t1\t0\t0\t0",
    },
    Edge {
        what: "equal marks",
        text: b"UNA++.? '",
        last: "stopped\t1\t0\t0\t0",
    },
    Edge {
        what: "decimal and component mark equal",
        text: b"UNA.+.? '",
        last: "stopped\t1\t0\t0\t0",
    },
    Edge {
        what: "a letter as mark",
        text: b"UNA:a.? '",
        last: "stopped\t1\t0\t0\t0",
    },
    Edge {
        what: "a capital as mark",
        text: b"UNA:+.?Z'",
        last: "stopped\t1\t0\t0\t0",
    },
    Edge {
        what: "a digit as mark",
        text: b"UNA:+.7 '",
        last: "stopped\t1\t0\t0\t0",
    },
    Edge {
        what: "a minus as mark",
        text: b"UNA-+.? '",
        last: "stopped\t1\t0\t0\t0",
    },
    Edge {
        what: "a space as mark",
        text: b"UNA +.? '",
        last: "stopped\t1\t0\t0\t0",
    },
    Edge {
        what: "a byte above 126 as mark",
        text: b"UNA:+.? \x7f",
        last: "stopped\t1\t0\t0\t0",
    },
    Edge {
        what: "a decimal mark that is neither point nor comma",
        text: b"UNA:+;? '",
        last: "stopped\t1\t0\t0\t0",
    },
    Edge {
        what: "a comma as decimal mark",
        text: b"UNA:+,? 'BGM+1'",
        last: "cut\t1",
    },
    Edge {
        what: "other marks",
        text: b"UNA*^.! ~BGM^A*B^C!~D~",
        last: "cut\t1",
    },
    Edge {
        what: "a line break at the start",
        text: b"\r\nBGM+1'",
        last: "stopped\t2\t1\t0\t1",
    },
    Edge {
        what: "line breaks behind a header",
        text: b"UNA:+.? '\n\r\nBGM+1'",
        last: "cut\t1",
    },
    Edge {
        what: "line breaks behind terminators",
        text: b"BGM+1'\n\r\r\nDTM+2'\r\n",
        last: "cut\t2",
    },
    Edge {
        what: "a space behind a terminator",
        text: b"BGM+1' DTM+2'",
        last: "stopped\t4\t2\t0\t0",
    },
    Edge {
        what: "a line break inside a segment",
        text: b"BGM+A:B+\r'",
        last: "stopped\t2\t1\t2\t1",
    },
    Edge {
        what: "a line break inside a tag",
        text: b"BG\nM'",
        last: "stopped\t2\t1\t0\t1",
    },
    Edge {
        what: "a released element mark",
        text: b"BGM+A?+B'",
        last: "cut\t1",
    },
    Edge {
        what: "a released terminator",
        text: b"BGM+A?'B'",
        last: "cut\t1",
    },
    Edge {
        what: "a released release mark",
        text: b"BGM+A??'",
        last: "cut\t1",
    },
    Edge {
        what: "a released letter",
        text: b"BGM+?A'",
        last: "cut\t1",
    },
    Edge {
        what: "a released line break",
        text: b"BGM+A?\n'",
        last: "stopped\t2\t1\t1\t1",
    },
    Edge {
        what: "a release mark at the end",
        text: b"BGM+A?",
        last: "stopped\t3\t1\t1\t1",
    },
    Edge {
        what: "a release mark at the start of the last segment",
        text: b"BGM+A'?",
        last: "stopped\t3\t2\t0\t1",
    },
    Edge {
        what: "a terminator that is released, and no other",
        text: b"BGM+A?'",
        last: "stopped\t3\t1\t1\t1",
    },
    Edge {
        what: "the end in the tag",
        text: b"BG",
        last: "stopped\t3\t1\t0\t1",
    },
    Edge {
        what: "the end in the tag's second component",
        text: b"BG:",
        last: "stopped\t3\t1\t0\t2",
    },
    Edge {
        what: "the end behind the tag",
        text: b"BGM",
        last: "stopped\t3\t1\t0\t1",
    },
    Edge {
        what: "the end behind an element mark",
        text: b"BGM+",
        last: "stopped\t3\t1\t1\t1",
    },
    Edge {
        what: "the end behind a component mark",
        text: b"BGM+A:",
        last: "stopped\t3\t1\t1\t2",
    },
    Edge {
        what: "the end in the second segment",
        text: b"UNH+1'\r\nBGM+A?:B:",
        last: "stopped\t3\t2\t1\t2",
    },
    Edge {
        what: "a lower-case tag",
        text: b"bgm+1'",
        last: "stopped\t4\t1\t0\t0",
    },
    Edge {
        what: "a short tag",
        text: b"BG+1'",
        last: "stopped\t4\t1\t0\t0",
    },
    Edge {
        what: "a long tag",
        text: b"BGMX+1'",
        last: "stopped\t4\t1\t0\t0",
    },
    Edge {
        what: "a digit in the tag",
        text: b"BG1+1'",
        last: "stopped\t4\t1\t0\t0",
    },
    Edge {
        what: "no tag",
        text: b"'",
        last: "stopped\t4\t1\t0\t0",
    },
    Edge {
        what: "an empty second segment",
        text: b"BGM+1''",
        last: "stopped\t4\t2\t0\t0",
    },
    Edge {
        what: "a tag of two components",
        text: b"BGM:1+1'",
        last: "stopped\t4\t1\t0\t0",
    },
    Edge {
        what: "a tag with a release mark",
        text: b"B?GM+1'",
        last: "cut\t1",
    },
    Edge {
        what: "UNA with a release mark",
        text: b"U?NA+1'",
        last: "stopped\t4\t1\t0\t0",
    },
    Edge {
        what: "UNA behind the header",
        text: b"UNA:+.? 'UNA+1'",
        last: "stopped\t4\t1\t0\t0",
    },
    Edge {
        what: "UNA behind a segment",
        text: b"BGM+1'UNA:+.? '",
        last: "stopped\t4\t2\t0\t0",
    },
    Edge {
        what: "byte 31",
        text: b"BGM+\x1f'",
        last: "stopped\t2\t1\t1\t1",
    },
    Edge {
        what: "byte 127",
        text: b"BGM+A+B:\x7f'",
        last: "stopped\t2\t1\t2\t2",
    },
    Edge {
        what: "byte 200",
        text: b"BGM+\xc8'",
        last: "stopped\t2\t1\t1\t1",
    },
    Edge {
        what: "a forbidden byte before the bad tag",
        text: b"bgm+\x7f'",
        last: "stopped\t2\t1\t1\t1",
    },
    Edge {
        what: "a forbidden byte before the missing end",
        text: b"bgm+\x7f",
        last: "stopped\t2\t1\t1\t1",
    },
    Edge {
        what: "the missing end before the bad tag",
        text: b"bgm+1",
        last: "stopped\t3\t1\t1\t1",
    },
    Edge {
        what: "a forbidden byte behind the terminator",
        text: b"BGM+1'\x7f",
        last: "stopped\t2\t2\t0\t1",
    },
    Edge {
        what: "a name with an umlaut",
        text: b"NAD+DP+4089876511111::9++Warenempf\xe4nger-Name 1:Warenempf\xe4nger-Name 2+Maarweg 104+K\xf6ln++50825+DE'",
        last: "stopped\t2\t1\t4\t1",
    },
    Edge {
        what: "a town with an umlaut",
        text: b"NAD+DP+4089876511111::9++A:B+Maarweg 104+K\xf6ln++50825+DE'",
        last: "stopped\t2\t1\t6\t1",
    },
];
