//! What holds of all requests.
ghost use Rattle.std.specs.Prelude.{◌≡◌, Some};
ghost use Rattle.script.specs.Requests.{IsRequest, request_of, request_text};
ghost use Rattle.script.specs.declared.request.Request.{Request};

/// What `put_request` writes of a request, `parse_request` reads as that request.
pub fn requests_read_back()
    ensures { (request : Request) → IsRequest request → request_of (request_text request) ≡ Some request }
{}
