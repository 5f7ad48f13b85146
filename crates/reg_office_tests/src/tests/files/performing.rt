//! Each job of the program, over an office in a file and given streams.
use crate::tests::facts::ensure;
use crate::tests::folders::folder_for;
use crate::tests::transcript::{answered, sent};
use reg_files::performing::perform;
use reg_jobs::command_line::job;
use std::net::{Ipv4Addr, SocketAddr, TcpListener};
use std::test::Fail;
use std::{fs, str};

/// Jobs in their order. Each begins with its exit status and its words, in which `%` is a folder where
/// nothing is, and PORT a port at which another listens. It is given the lines after `> `, and gives those
/// after `< `: on standard output, or on standard error where the status is 1, and nothing on the other.
/// After `+` it gives them among other lines. `w` is no job: the file has these lines.
const JOBS: &str = r#"
0 init %/o.db --clerk clerk-token-00001
< ready

w %/r.csv
> lo,hi,treatment,note
> 0,9,first-come-first-served,

0 define %/o.db codes 9 %/r.csv --clerk clerk-token-00001
< 200 {"defined":"codes"}

0 script --file %/o.db --clerk clerk-token-00001
> 1700000000 clerk-token-00001 PUT /desk/tokens {"account":"alice","kind":"applicant","token":"alice-token-00001","until":4000000000}
< 200 {"account":"alice","kind":"applicant","until":4000000000}
> hello
< 400 {"error":"line"}

0 script --clerk clerk-token-00001
> 1700000000 alice-token-00001 GET /requests
< 401 {"error":"token"}

1 script --clerk short
< fault: token

1 init %/o.db --clerk alice-token-00001
< fault: exists

0 request %/o.db GET /registries
< ["codes"]

0 listing %/o.db --registry codes
< Value,Description,Status,Policy,First,Expires,Assignee
< 0-9,,Unassigned,first-come-first-served,,,

1 listing %/o.db --registry none
< 404 {"error":"registry"}

1 serve %/o.db --port PORT
< fault: port

0 publish %/o.db %/site
< published 1 registries, 0 entries, 0 blocks

+ verify %/site
< verified 1 changes, last

0 due %/o.db --within 30
< Registry,Value,Description,Assignee,Expires,Held

+ check %/o.db
< version 4
< well kept
< registries 1
< entries 0

0 copy %/o.db %/copies
< copied version 4, 0 requests

+ journal %/copies/o.db
< Number,Moment,By,Token,Kind,Account,Reference,Registry,Value,Block,Other,Digest

1 journal %/copies/o.db --digest 0000000000000000
< fault: journal

0 tokens %/copies/o.db
< Account,Kind,Until,Digest
< alice,applicant,2096-10-02T07:06:40Z,3edb5d9d72eb
< clerk,clerk,3000-01-01T00:00:00Z,ff2676003e48

0 revoke %/o.db --account alice
< Account,Kind,Until,Digest
< alice,applicant,2096-10-02T07:06:40Z,3edb5d9d72eb

w %/register.csv
> Value,Description,Status,Policy,First,Expires,Assignee
> 0-4,,Unassigned,first-come-first-served,,,
> 5,Five,Assigned,first-come-first-served,2020-02-29,,alice
> 6-9,,Unassigned,first-come-first-served,,,

+ import %/register.csv codes --clerk clerk-token-00001 --expert xan
< 1582934400 clerk-token-00001 PUT /desk/approve/alice/import-5-64a7994c6feb

0 --version
< reg_cli 4.0.0 (office version 4)

+ --help
< reg_cli init office.db --clerk @clerk.token
"#;

// Does the job of these words, which is given this: its exit status, standard output and standard error.
fn done(rt: &HostRuntime, words: &str, input: &str) -> Result<(u8, Vec<u8>, Vec<u8>), Fail> {
    let alloc = rt.alloc();
    let mut list = Vec::new(alloc);
    list.push("reg_cli")?;
    for word in words.split(' ') {
        list.push(word)?;
    }
    let Ok(job) = job(alloc, list.as_slice()) else {
        return Err("words of a job".into());
    };
    let mut input = input.as_bytes();
    let mut output = Vec::new(alloc);
    let mut errors = Vec::new(alloc);
    let status = perform(rt, job, &mut input, &mut output, &mut errors);
    Ok((status, output, errors))
}

// Does what a case says.
fn assert_case(rt: &HostRuntime, case: &str) -> Result<(), Fail> {
    let (line, lines) = case.trim_start().split_once('\n').ok_or("a case")?;
    let (sign, words) = line.split_once(' ').ok_or("words")?;
    let input = sent(rt.alloc(), &[lines])?;
    if sign == "w" {
        return Ok(fs::write(rt, words, input.as_str())?);
    }
    let wanted = answered(rt.alloc(), &[lines])?;
    let (status, output, errors) = done(rt, words, input.as_str())?;
    let is_fault = sign == "1";
    let (said, other, wanted_status) = if is_fault {
        (errors.as_slice(), output.as_slice(), 1)
    } else {
        (output.as_slice(), errors.as_slice(), 0)
    };
    ensure(status == wanted_status, words)?;
    ensure(other.is_empty(), words)?;
    let said = str::from_utf8(said)?;
    let is_among_others = sign == "+" && said.contains(wanted.as_str().trim_end());
    ensure(is_among_others || said == wanted.as_str(), words)
}

#[test]
fn each_job(rt: HostRuntime) -> Result<(), Fail> {
    let folder = folder_for(&rt, "jobs")?;
    fs::create_dir(&rt, folder.as_str())?;
    let listener = TcpListener::bind(&rt, SocketAddr::from((Ipv4Addr::LOCALHOST, 0)))?;
    let port = listener.local_addr()?.port().to_string(rt.alloc())?;
    let jobs = JOBS.replace(rt.alloc(), "%", folder.as_str())?;
    let jobs = jobs.as_str().replace(rt.alloc(), "PORT", port.as_str())?;
    for case in jobs.as_str().split("\n\n") {
        assert_case(&rt, case)?;
    }
    Ok(fs::remove_dir_all(&rt, folder.as_str())?)
}
