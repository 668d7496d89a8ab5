//! Lines of JSON, and what is put for them.

use line_plan::Plan;
use line_requests::LINE_LIMIT;
use line_service::Service;
use line_serving::{RequestLines, serve};
use plan_text::read_plan;
use rail_text::{MemSink, NoMemory};
use std::alloc::Global;
use std::test::Fail;

const PLAN: &str = "plan 1\nboxes 2\ndelay 2\nlooks 1000000\nbox Ash\nbox Beech\nend\n";

const REQUESTS: &str = "\
{\"box\":\"Ash\",\"at\":\"09:00\",\"call\":\"ring down 1\"}
{\"call\": \"hear up\", \"at\": \"09:01\", \"box\": \"Beech\"}
{\"box\":\"Ash\",\"at\":\"08:59\",\"call\":\"ring down 1\"}
{\"box\":\"Cedar\",\"at\":\"09:02\",\"call\":\"ring down 1\"}
{\"box\":\"Ash\",\"at\":\"09:02\"}
ring down 1
{\"end\":false}
{\"box\":\"Ash\",\"at\":\"09:03\",\"call\":\"ring down\"}
{\"journal\":2}
{\"back\":1}
{\"back\":2}
{\"journal\":1}
{\"may\":\"Beech\",\"at\":\"09:00\"}
{\"end\":true}
{\"end\":true}
";

const ANSWERS: &str = "\
{\"at\":\"09:00\",\"box\":\"Ash\",\"call\":\"ring down 1\",\"done\":true,\"n\":1,\"reply\":\"rung 1\"}
{\"at\":\"09:01\",\"box\":\"Beech\",\"call\":\"hear up\",\"done\":true,\"n\":2,\"reply\":\"heard 1 1\"}
{\"error\":\"moment falls\",\"says\":\"the moment is before that of the box's last call\"}
{\"error\":\"unknown box\",\"says\":\"the line has no box of that name\"}
{\"error\":\"not a request\",\"says\":\"a request is an object with exactly the keys of one: box, at and call; may and at; look; look and to; changes; journal; script; back; or end\"}
{\"error\":\"not JSON\",\"says\":\"the line is no JSON\"}
{\"error\":\"not a request\",\"says\":\"a request is an object with exactly the keys of one: box, at and call; may and at; look; look and to; changes; journal; script; back; or end\"}
{\"error\":\"number of words\",\"says\":\"the call has too many words, or too few\"}
{\"journal\":[{\"at\":\"09:01\",\"box\":\"Beech\",\"call\":\"hear up\",\"done\":true,\"n\":2,\"reply\":\"heard 1 1\"}]}
{\"entries\":1}
{\"error\":\"unknown entry\",\"says\":\"there aren't so many entries\"}
{\"journal\":[{\"at\":\"09:00\",\"box\":\"Ash\",\"call\":\"ring down 1\",\"done\":true,\"n\":1,\"reply\":\"rung 1\"}]}
{\"may\":[]}
{\"entries\":1}
";

// Beech answers by its script, is its own man's behind that, and by `back` in the midst of one.
const SCRIPTED: &str = "\
{\"script\":\"script Beech\\n09:01 await_bell up 1\\n09:02 ring up 1\\nend\\n\"}
{\"box\":\"Beech\",\"at\":\"09:03\",\"call\":\"hear up\"}
{\"may\":\"Beech\",\"at\":\"09:03\"}
{\"box\":\"Ash\",\"at\":\"09:00\",\"call\":\"ring down 1\"}
{\"journal\":2}
{\"script\":\"script Beech\\n09:01 hear up\\nend\\n\"}
{\"box\":\"Beech\",\"at\":\"09:03\",\"call\":\"hear up\"}
{\"script\":\"script Ash\\n09:00 hear down\\n09:04 await_bell down 2\\nend\\n\"}
{\"box\":\"Ash\",\"at\":\"09:05\",\"call\":\"hear down\"}
{\"back\":5}
{\"box\":\"Ash\",\"at\":\"09:05\",\"call\":\"ring down 2\"}
{\"end\":true}
";

const SCRIPTED_ANSWERS: &str = "\
{\"entries\":0}
{\"error\":\"has a script\",\"says\":\"the box is worked by its script, which has calls left\"}
{\"error\":\"has a script\",\"says\":\"the box is worked by its script, which has calls left\"}
{\"at\":\"09:00\",\"box\":\"Ash\",\"call\":\"ring down 1\",\"done\":true,\"n\":1,\"reply\":\"rung 1\"}
{\"journal\":[{\"at\":\"09:01\",\"box\":\"Beech\",\"call\":\"await_bell up 1\",\"done\":true,\"n\":2,\"reply\":\"heard 1 1\"},{\"at\":\"09:02\",\"box\":\"Beech\",\"call\":\"ring up 1\",\"done\":true,\"n\":3,\"reply\":\"rung 1\"}]}
{\"error\":\"moment falls\",\"says\":\"the moment is before that of the box's last call\"}
{\"at\":\"09:03\",\"box\":\"Beech\",\"call\":\"hear up\",\"done\":false,\"n\":4,\"reply\":\"silent 1\",\"says\":\"the bell from Ash holds no code\"}
{\"entries\":5}
{\"error\":\"has a script\",\"says\":\"the box is worked by its script, which has calls left\"}
{\"entries\":5}
{\"at\":\"09:05\",\"box\":\"Ash\",\"call\":\"ring down 2\",\"done\":true,\"n\":6,\"reply\":\"rung 2\"}
{\"entries\":6}
";

// Scripts that can't be read, and one of no box of the line.
const MISREAD: &str = "\
{\"script\":\"script Beech\\n09:01 hear up\\n09:00 hear up\\nend\\n\"}
{\"script\":\"script Cedar\\nend\\n\"}
{\"script\":\"script Beech\\n09:01 hear up\\n\"}
{\"script\":true}
{\"end\":true}
";

const MISREAD_ANSWERS: &str = "\
{\"error\":\"moment falls\",\"line\":3,\"says\":\"the moment is before that of the call above\"}
{\"error\":\"wrong box\",\"line\":1,\"says\":\"the line has no box of that name\"}
{\"error\":\"no end\",\"line\":3,\"says\":\"a script ends with a line `end`\"}
{\"error\":\"not a request\",\"says\":\"a request is an object with exactly the keys of one: box, at and call; may and at; look; look and to; changes; journal; script; back; or end\"}
{\"entries\":0}
";

// What is put for these lines.
fn put_for(alloc: Global, plan: Plan, lines: &[u8]) -> Result<Vec<u8>, NoMemory> {
    let mut service = Service::new(alloc, plan)?;
    let mut source = RequestLines::new(lines);
    let mut out = MemSink::new(alloc, 8192, 100, Vec::new(alloc))?;
    let _ = serve(alloc, &mut service, &mut source, &mut out);
    Ok(Vec::from_slice(alloc, out.taken())?)
}

// A line that is too long by a byte, and the end.
fn long_line(alloc: Global) -> Result<Vec<u8>, NoMemory> {
    let mut lines = Vec::new(alloc);
    for _ in 0..LINE_LIMIT + 1 {
        lines.push(b' ')?;
    }
    lines.extend_from_slice(b"\n{\"end\":true}\n")?;
    Ok(lines)
}

fn plan_of(alloc: Global) -> Result<Plan, Fail> {
    match read_plan(alloc, PLAN.as_bytes()) {
        Ok(plan) => Ok(plan),
        Err(_) => Err(Fail::from("the plan is read")),
    }
}

#[test]
fn lines_are_answered(rt: HostRuntime) -> Result<(), Fail> {
    let plan = plan_of(rt.alloc())?;
    let put = put_for(rt.alloc(), plan, REQUESTS.as_bytes())?;
    assert!(rt;
        put.as_slice() == ANSWERS.as_bytes(),
        "the answers of the lines"
    );
    Ok(())
}

#[test]
fn boxes_go_on_by_their_scripts(rt: HostRuntime) -> Result<(), Fail> {
    let plan = plan_of(rt.alloc())?;
    let put = put_for(rt.alloc(), plan, SCRIPTED.as_bytes())?;
    assert!(rt;
        put.as_slice() == SCRIPTED_ANSWERS.as_bytes(),
        "the answers where boxes have scripts"
    );
    Ok(())
}

#[test]
fn scripts_are_misread(rt: HostRuntime) -> Result<(), Fail> {
    let plan = plan_of(rt.alloc())?;
    let put = put_for(rt.alloc(), plan, MISREAD.as_bytes())?;
    assert!(rt;
        put.as_slice() == MISREAD_ANSWERS.as_bytes(),
        "the answers to scripts that can't be read"
    );
    Ok(())
}

#[test]
fn long_lines_are_passed_over(rt: HostRuntime) -> Result<(), Fail> {
    let plan = plan_of(rt.alloc())?;
    let lines = long_line(rt.alloc())?;
    let put = put_for(rt.alloc(), plan, &lines)?;
    let answers =
        "{\"error\":\"too long\",\"says\":\"the line is longer than 65,536 bytes\"}\n{\"entries\":0}\n";
    assert!(rt;
        put.as_slice() == answers.as_bytes(),
        "one line is too long"
    );
    Ok(())
}
