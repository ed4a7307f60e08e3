//! Sites in JSON, read or refused.

use cable_text::MemorySink;
use site_json::read_json;
use site_model::{SiteCode, SiteFault};
use site_text::write_site;
use std::alloc::Global;
use std::test::Fail;

const FIRST: &str =
    "{\"site\":1,\"mode\":\"tree\",\"types\":[{\"capacity\":400,\"price\":100}],\"points\":[{\"kind\":\"substation\",\"name\":\"S\",\"x\":0,\"y\":0,\"feeders\":4,\"power\":10000},{\"kind\":\"turbine\",\"name\":\"A\",\"x\":300,\"y\":400,\"power\":100}]}";

const EVERY_KIND: &str =
    "{\"pairs\":[{\"a\":\"K\",\"b\":\"S\",\"charge\":7500},{\"closed\":true,\"b\":\"S\",\"a\":\"A\"}],\"obstacles\":[[[-100,400],[100,400],[100,600]]],\"points\":[{\"kind\":\"substation\",\"name\":\"S\",\"x\":0,\"y\":0,\"feeders\":4,\"power\":10000},{\"kind\":\"turbine\",\"name\":\"\\u0041\",\"x\":300,\"y\":-400,\"power\":100},{\"kind\":\"bend\",\"name\":\"K\",\"x\":200,\"y\":500}],\"types\":[{\"capacity\":400,\"price\":100},{\"price\":170,\"capacity\":800}],\"mode\":\"strings\",\"site\":2,\"site\":1}";

/// The front of a site, with one type and one point.
const FRONT: &str =
    "{\"site\":1,\"mode\":\"tree\",\"types\":[{\"capacity\":400,\"price\":100}],\"points\":[{\"kind\":\"substation\",\"name\":\"S\",\"x\":0,\"y\":0,\"feeders\":4,\"power\":10000}";

/// The fault of a text, if it has one.
fn fault_of(alloc: Global, bytes: &[u8]) -> Option<SiteFault> {
    match read_json(alloc, bytes) {
        Ok(_) => None,
        Err(fault) => Some(fault),
    }
}

/// A refusal.
fn refusal(code: SiteCode, place: u64) -> Option<SiteFault> {
    Some(SiteFault::Refused {
        code,
        place,
        broken_line: false,
    })
}

/// Sites in JSON, and their lines.
const READ: [(&str, &str); 2] = [
    (
        FIRST,
        "site 1\nmode tree\ntype 400 100\nsubstation S 0 0 4 10000\nturbine A 300 400 100\nend site\n",
    ),
    (
        EVERY_KIND,
        "site 1\nmode strings\ntype 400 100\ntype 800 170\nsubstation S 0 0 4 10000\nturbine A 300 -400 100\nbend K 200 500\nobstacle 3\ncorner -100 400\ncorner 100 400\ncorner 100 600\ncharge K S 7500\nclosed A S\nend site\n",
    ),
];

/// The lines of a site in JSON.
fn lines_of(alloc: Global, text: &str) -> Result<Vec<u8>, Fail> {
    let site = read_json(alloc, text.as_bytes())?;
    let mut sink = MemorySink::new(alloc, 512, Vec::new(alloc))?;
    write_site(&site, &mut sink)?;
    Ok(Vec::from_slice(alloc, sink.taken())?)
}

#[test]
fn sites_of_every_kind_of_item_are_read(rt: HostRuntime) -> Result<(), Fail> {
    for (text, lines) in READ {
        let read = lines_of(rt.alloc(), text)?;
        assert_eq!(rt; read.as_slice(), lines.as_bytes());
    }
    Ok(())
}

#[test]
fn a_text_has_the_first_fault_of_its_first_bad_item(rt: HostRuntime) {
    for (text, code, place) in [
        ("", SiteCode::Form, 0),
        (
            "{\"site\":1,\"mode\":\"tree\",\"types\":[{\"capac",
            SiteCode::Form,
            0,
        ),
        (
            "{\"site\":1,\"mode\":\"tree\",\"types\":[],\"points\":[1e400]}",
            SiteCode::Form,
            0,
        ),
        ("site 1\nmode tree\n", SiteCode::Form, 0),
        ("[]", SiteCode::Shape, 1),
        (
            "{\"site\":3,\"mode\":\"tree\",\"types\":[],\"points\":[],\"more\":1}",
            SiteCode::Shape,
            1,
        ),
        (
            "{\"site\":1,\"mode\":\"tree\",\"types\":null,\"points\":[]}",
            SiteCode::Shape,
            1,
        ),
        (
            "{\"site\":1,\"mode\":\"tree\",\"types\":[],\"points\":[],\"obstacles\":null}",
            SiteCode::Shape,
            1,
        ),
        (
            "{\"site\":1,\"mode\":\"tree\",\"types\":[]}",
            SiteCode::Shape,
            1,
        ),
        (
            "{\"site\":\"1\",\"mode\":\"tree\",\"types\":[],\"points\":[]}",
            SiteCode::Shape,
            1,
        ),
        (
            "{\"site\":3,\"mode\":\"forest\",\"types\":[],\"points\":[]}",
            SiteCode::Range,
            1,
        ),
        (
            "{\"site\":1,\"site\":3,\"mode\":\"tree\",\"types\":[],\"points\":[]}",
            SiteCode::Range,
            1,
        ),
        (
            "{\"site\":1,\"mode\":\"forest\",\"types\":[],\"points\":[]}",
            SiteCode::Shape,
            2,
        ),
        (
            "{\"site\":1,\"mode\":5,\"types\":[],\"points\":[]}",
            SiteCode::Shape,
            2,
        ),
        (
            "{\"site\":1,\"mode\":\"tree\",\"types\":[],\"points\":[5]}",
            SiteCode::Form,
            3,
        ),
        (
            "{\"site\":1,\"mode\":\"tree\",\"types\":[{\"capacity\":400,\"price\":100,\"loss\":0}],\"points\":[]}",
            SiteCode::Shape,
            3,
        ),
        (
            "{\"site\":1,\"mode\":\"tree\",\"types\":[{\"capacity\":0,\"price\":1.5}],\"points\":[]}",
            SiteCode::Shape,
            3,
        ),
        (
            "{\"site\":1,\"mode\":\"tree\",\"types\":[{\"capacity\":0,\"price\":100}],\"points\":[5]}",
            SiteCode::Range,
            3,
        ),
    ] {
        assert_eq!(rt;
            fault_of(rt.alloc(), text.as_bytes()),
            refusal(code, place),
            "in {text}"
        );
    }
}

#[test]
fn an_item_behind_others_has_its_own_place(rt: HostRuntime) -> Result<(), Fail> {
    let alloc = rt.alloc();
    for (end, code, place) in [
        (
            ",{\"kind\":\"turbine\",\"name\":\"A\",\"x\":300.0,\"y\":400,\"power\":100}]}",
            SiteCode::Shape,
            5,
        ),
        (
            ",{\"kind\":\"turbine\",\"name\":\"A\",\"x\":-0,\"y\":400,\"power\":100}]}",
            SiteCode::Shape,
            5,
        ),
        (
            ",{\"kind\":\"turbine\",\"name\":\"A\",\"x\":3e2,\"y\":400,\"power\":100}]}",
            SiteCode::Shape,
            5,
        ),
        (
            ",{\"kind\":\"turbine\",\"name\":\"A\",\"x\":9223372036854775808,\"y\":400,\"power\":0}]}",
            SiteCode::Shape,
            5,
        ),
        (
            ",{\"kind\":\"turbine\",\"name\":\"A\",\"x\":1000001,\"y\":400,\"power\":100}]}",
            SiteCode::Range,
            5,
        ),
        (
            ",{\"kind\":\"tower\",\"name\":\"A\",\"x\":300,\"y\":400,\"power\":100}]}",
            SiteCode::Shape,
            5,
        ),
        (
            ",{\"kind\":\"bend\",\"name\":\"A\",\"x\":300,\"y\":400,\"power\":100}]}",
            SiteCode::Shape,
            5,
        ),
        (
            ",{\"kind\":\"bend\",\"name\":7,\"x\":300,\"y\":400}]}",
            SiteCode::Shape,
            5,
        ),
        (
            ",{\"kind\":\"bend\",\"name\":\"A b\",\"x\":300,\"y\":400}]}",
            SiteCode::BadName,
            5,
        ),
        (
            ",{\"kind\":\"bend\",\"name\":\"A\",\"x\":0,\"y\":0}]}",
            SiteCode::SamePlace,
            5,
        ),
        (
            ",{\"kind\":\"turbine\",\"name\":\"A\",\"x\":300,\"y\":400,\"power\":100}],\"obstacles\":[5]}",
            SiteCode::Shape,
            6,
        ),
        (
            ",{\"kind\":\"turbine\",\"name\":\"A\",\"x\":300,\"y\":400,\"power\":100}],\"obstacles\":[[[0,100],[100,100]]]}",
            SiteCode::Range,
            6,
        ),
        (
            ",{\"kind\":\"turbine\",\"name\":\"A\",\"x\":300,\"y\":400,\"power\":100}],\"obstacles\":[[[0,100],[100],[0,200]]]}",
            SiteCode::Shape,
            8,
        ),
        (
            ",{\"kind\":\"turbine\",\"name\":\"A\",\"x\":300,\"y\":400,\"power\":100}],\"obstacles\":[[[0,100],[600,100],[600,900]]]}",
            SiteCode::InObstacle,
            9,
        ),
        (
            ",{\"kind\":\"turbine\",\"name\":\"A\",\"x\":300,\"y\":400,\"power\":100}],\"pairs\":[{\"a\":\"S\",\"b\":\"A\",\"closed\":false}]}",
            SiteCode::Shape,
            6,
        ),
        (
            ",{\"kind\":\"turbine\",\"name\":\"A\",\"x\":300,\"y\":400,\"power\":100}],\"pairs\":[{\"a\":\"S\",\"b\":\"A\",\"charge\":1},{\"a\":\"A\",\"b\":\"S\",\"closed\":true}]}",
            SiteCode::SamePair,
            7,
        ),
        (
            ",{\"kind\":\"turbine\",\"name\":\"A\",\"x\":300,\"y\":400,\"power\":100}],\"pairs\":[{\"a\":\"S\",\"b\":\"X\",\"closed\":true}]}",
            SiteCode::UnknownName,
            6,
        ),
    ] {
        let text = format!(in alloc; "{FRONT}{end}")?;
        assert_eq!(rt;
            fault_of(alloc, text.as_bytes()),
            refusal(code, place),
            "in {end}"
        );
    }
    Ok(())
}

#[test]
fn bytes_that_are_no_text_or_too_many_are_refused(rt: HostRuntime) -> Result<(), Fail> {
    let alloc = rt.alloc();
    assert_eq!(rt;
        fault_of(alloc, b"{\"site\":\xff}"),
        refusal(SiteCode::Form, 0)
    );
    let mut spaces = vec![in alloc; b' '; 8_388_608]?;
    assert_eq!(rt;
        fault_of(alloc, spaces.as_slice()),
        refusal(SiteCode::Form, 0)
    );
    spaces.push(b' ')?;
    assert_eq!(rt;
        fault_of(alloc, spaces.as_slice()),
        refusal(SiteCode::TooLong, 0)
    );
    Ok(())
}
