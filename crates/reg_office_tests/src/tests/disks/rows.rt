//! Lines and their answers, worked from the specification.

/// How many of the first lines leave nothing that a store of the first version cannot hold.
pub const OF_THE_FIRST: usize = 21;

/// How many leave nothing that one of the second cannot hold: marks and minutes, but no agents.
pub const OF_THE_SECOND: usize = 31;

/// All leave nothing that one of the third cannot hold, but for the acts.
pub const OF_THE_THIRD: usize = 42;

/// The lines of one office from its founding on, each with its answer, as in other transcripts.
pub const ROWS: &str = r#"
> 1700000000 clerk-token-00001 PUT /desk/tokens {"account":"alice","kind":"applicant","token":"alice-token-00001","until":1800000000}
< 200 {"account":"alice","kind":"applicant","until":1800000000}
> 1700000000 clerk-token-00001 PUT /desk/tokens {"account":"bob","kind":"applicant","token":"bobby-token-00001","until":1800000000}
< 200 {"account":"bob","kind":"applicant","until":1800000000}
> 1700000000 clerk-token-00001 PUT /desk/tokens {"account":"xan","kind":"expert","token":"xpert-token-00001","until":1800000000}
< 200 {"account":"xan","kind":"expert","until":1800000000}
> 1700000000 clerk-token-00001 PUT /desk/registries/flags/255 lo,hi,treatment,note|0,63,standards-action,|64,191,first-come-first-served,|192,223,expert-review,|224,255,reserved,kept for later|
< 200 {"defined":"flags"}
> 1700000000 clerk-token-00001 PUT /desk/pool/001A2B
< 200 {"pool":"001A2B"}
> 1700000000 alice-token-00001 PUT /requests/a-1 {"contact":"c","kind":"code","label":"Green","registry":"flags","value":200}
< 201 {"ask":{"contact":"c","kind":"code","label":"Green","registry":"flags","value":200},"reference":"a-1","state":"pending"}
> 1700000000 clerk-token-00001 PUT /desk/experts/alice/a-1/xan
< 200 {"account":"alice","ask":{"contact":"c","kind":"code","label":"Green","registry":"flags","value":200},"reference":"a-1","state":"pending"}
> 1700000000 xpert-token-00001 PUT /queue/alice/a-1 {"text":"no","verdict":"against"}
< 200 {"account":"alice","advice":{"text":"no","verdict":"against"},"ask":{"contact":"c","kind":"code","label":"Green","registry":"flags","value":200},"reference":"a-1","state":"pending"}
> 1700000000 xpert-token-00001 PUT /queue/alice/a-1 {"text":"fine","verdict":"for"}
< 200 {"account":"alice","advice":{"text":"fine","verdict":"for"},"ask":{"contact":"c","kind":"code","label":"Green","registry":"flags","value":200},"reference":"a-1","state":"pending"}
> 1700000000 clerk-token-00001 PUT /desk/approve/alice/a-1
< 200 {"account":"alice","ask":{"contact":"c","kind":"code","label":"Green","registry":"flags","value":200},"given":"200","reference":"a-1","state":"approved"}
> 1700000000 alice-token-00001 PUT /requests/m-1 {"address":"1 Road, Town","kind":"block","organization":"Acme, Inc.","size":"MA-M"}
< 201 {"ask":{"address":"1 Road, Town","kind":"block","organization":"Acme, Inc.","size":"MA-M"},"reference":"m-1","state":"pending"}
> 1700000000 clerk-token-00001 PUT /desk/approve/alice/m-1
< 200 {"account":"alice","ask":{"address":"1 Road, Town","kind":"block","organization":"Acme, Inc.","size":"MA-M"},"given":"001A2B0","reference":"m-1","state":"approved"}
> 1700000000 alice-token-00001 PUT /holdings/001A2B0 {"private":true}
< 200 {"address":"1 Road, Town","block":"001A2B0","organization":"Acme, Inc.","private":true,"size":"MA-M"}
> 1700000000 bobby-token-00001 PUT /requests/b-1 {"contact":"c","kind":"code","label":"Red","registry":"flags","value":65}
< 201 {"ask":{"contact":"c","kind":"code","label":"Red","registry":"flags","value":65},"reference":"b-1","state":"pending"}
> 1700000000 clerk-token-00001 PUT /desk/decline/bob/b-1 {"reason":"duplicate"}
< 200 {"account":"bob","ask":{"contact":"c","kind":"code","label":"Red","registry":"flags","value":65},"reason":"duplicate","reference":"b-1","state":"declined"}
> 1700000000 bobby-token-00001 PUT /requests/b-2 {"contact":"c","kind":"code","label":"Least","least":"first-come-first-served","registry":"flags"}
< 201 {"ask":{"contact":"c","kind":"code","label":"Least","least":"first-come-first-served","registry":"flags"},"reference":"b-2","state":"pending"}
> 1700000000 bobby-token-00001 DELETE /requests/b-2
< 200 {"ask":{"contact":"c","kind":"code","label":"Least","least":"first-come-first-served","registry":"flags"},"reference":"b-2","state":"withdrawn"}
> 1700000000 alice-token-00001 PUT /requests/e-1 {"chair":"wg","director":"ad","draft":"draft-x-00","interest":true,"kind":"early","label":"Early","registry":"flags","stable":true,"value":5}
< 201 {"ask":{"chair":"wg","director":"ad","draft":"draft-x-00","interest":true,"kind":"early","label":"Early","registry":"flags","stable":true,"value":5},"reference":"e-1","state":"pending"}
> 1700000000 clerk-token-00001 PUT /desk/approve/alice/e-1
< 200 {"account":"alice","ask":{"chair":"wg","director":"ad","draft":"draft-x-00","interest":true,"kind":"early","label":"Early","registry":"flags","stable":true,"value":5},"given":"5","reference":"e-1","state":"approved"}
> 1700000000 alice-token-00001 PUT /requests/n-1 {"chair":"wg","director":"ad","draft":"draft-x-00","interest":true,"kind":"renew","registry":"flags","stable":true,"value":5}
< 201 {"ask":{"chair":"wg","director":"ad","draft":"draft-x-00","interest":true,"kind":"renew","registry":"flags","stable":true,"value":5},"reference":"n-1","state":"pending"}
> 1700000000 clerk-token-00001 PUT /desk/approve/alice/n-1
< 200 {"account":"alice","ask":{"chair":"wg","director":"ad","draft":"draft-x-00","interest":true,"kind":"renew","registry":"flags","stable":true,"value":5},"given":"5","reference":"n-1","state":"approved"}
> 1700000000 clerk-token-00001 PUT /desk/holds/flags/5 {"held":true}
< 200 {"assignee":"alice","expires":"2025-11-14","first":"2023-11-14","held":true,"label":"Early","renewed":true,"status":"Temporary","value":5}
> 1700000000 alice-token-00001 PUT /requests/n-2 {"chair":"wg","director":"ad","draft":"draft-x-00","iesg":"M-7","interest":true,"kind":"renew","registry":"flags","stable":true,"value":5}
< 201 {"ask":{"chair":"wg","director":"ad","draft":"draft-x-00","iesg":"M-7","interest":true,"kind":"renew","registry":"flags","stable":true,"value":5},"reference":"n-2","state":"pending"}
> 1700000000 clerk-token-00001 PUT /desk/approve/alice/n-2
< 200 {"account":"alice","ask":{"chair":"wg","director":"ad","draft":"draft-x-00","iesg":"M-7","interest":true,"kind":"renew","registry":"flags","stable":true,"value":5},"given":"5","reference":"n-2","state":"approved"}
> 1700000000 alice-token-00001 PUT /requests/e-2 {"chair":"wg","director":"ad","draft":"draft-x-00","interest":true,"kind":"early","label":"Soon","registry":"flags","stable":true,"value":6}
< 201 {"ask":{"chair":"wg","director":"ad","draft":"draft-x-00","interest":true,"kind":"early","label":"Soon","registry":"flags","stable":true,"value":6},"reference":"e-2","state":"pending"}
> 1700000000 clerk-token-00001 PUT /desk/approve/alice/e-2
< 200 {"account":"alice","ask":{"chair":"wg","director":"ad","draft":"draft-x-00","interest":true,"kind":"early","label":"Soon","registry":"flags","stable":true,"value":6},"given":"6","reference":"e-2","state":"approved"}
> 1700000000 clerk-token-00001 PUT /desk/holds/flags/6 {"held":true}
< 200 {"assignee":"alice","expires":"2024-11-14","first":"2023-11-14","held":true,"label":"Soon","renewed":false,"status":"Temporary","value":6}
> 1700000000 clerk-token-00001 PUT /desk/holds/flags/6 {"held":false}
< 200 {"assignee":"alice","expires":"2024-11-14","first":"2023-11-14","label":"Soon","renewed":false,"status":"Temporary","value":6}
> 1700000000 clerk-token-00001 PUT /desk/holds/flags/6 {"held":true}
< 200 {"assignee":"alice","expires":"2024-11-14","first":"2023-11-14","held":true,"label":"Soon","renewed":false,"status":"Temporary","value":6}
> 1700000000 alice-token-00001 PUT /requests/p-2 {"contact":"c","kind":"permanent","registry":"flags","rfc":{"number":9999,"stream":"ietf","track":"standards"},"value":6}
< 201 {"ask":{"contact":"c","kind":"permanent","registry":"flags","rfc":{"number":9999,"stream":"ietf","track":"standards"},"value":6},"reference":"p-2","state":"pending"}
> 1700000000 clerk-token-00001 PUT /desk/approve/alice/p-2
< 200 {"account":"alice","ask":{"contact":"c","kind":"permanent","registry":"flags","rfc":{"number":9999,"stream":"ietf","track":"standards"},"value":6},"given":"6","reference":"p-2","state":"approved"}
> 1700000000 alice-token-00001 PUT /agents/bob {"reads":true}
< 200 {"agent":"bob","reads":true}
> 1700000000 alice-token-00001 PUT /agents/nobody {"reads":true}
< 200 {"agent":"nobody","reads":true}
> 1700000000 alice-token-00001 PUT /agents/nobody {"reads":false}
< 200 {"agent":"nobody","reads":false}
> 1700000000 bobby-token-00001 GET /principals
< 200 ["alice"]
> 1700000000 clerk-token-00001 PUT /desk/revoke {"token":"bobby-token-00001"}
< 200 {"revoked":true}
> 1700000000 clerk-token-00001 PUT /desk/tokens {"account":"dora","kind":"applicant","token":"doras-token-00001","until":1800000000}
< 200 {"account":"dora","kind":"applicant","until":1800000000}
> 1700000000 clerk-token-00001 PUT /desk/tokens {"account":"dora","kind":"expert","token":"dorax-token-00001","until":0}
< 200 {"account":"dora","kind":"expert","until":0}
> 1700000000 clerk-token-00001 DELETE /desk/accounts/dora
< 200 [{"account":"dora","digest":"2359a3ac9b39","kind":"applicant","until":1800000000},{"account":"dora","digest":"8478ddcf6b44","kind":"expert","until":0}]
> 1700000000 - GET /listings/registries/flags
< 200 Value,Description,Status,Policy,First,Expires,Assignee|0-4,,Unassigned,standards-action,,,|5,Early,Temporary,standards-action,2023-11-14,2026-11-14,alice|6,Soon,Assigned,standards-action,2023-11-14,,alice|7-63,,Unassigned,standards-action,,,|64-191,,Unassigned,first-come-first-served,,,|192-199,,Unassigned,expert-review,,,|200,Green,Assigned,expert-review,2023-11-14,,alice|201-223,,Unassigned,expert-review,,,|224-255,kept for later,Reserved,,,,|
> 1700000000 - GET /listings/blocks
< 200 Registry,Assignment,Organization Name,Organization Address|MA-M,001A2B0,Private,|
> 1700000000 clerk-token-00001 GET /desk/requests/alice/a-1
< 200 {"account":"alice","advice":[{"expert":"xan","text":"fine","verdict":"for"}],"ask":{"contact":"c","kind":"code","label":"Green","registry":"flags","value":200},"experts":["xan"],"given":"200","reference":"a-1","state":"approved"}
"#;
