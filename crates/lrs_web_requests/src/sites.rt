//! Whether a request comes from here, or from a page of another site.

ghost use Rattle.std.specs.Prelude.{◌≡◌, length, map, All};
ghost use Rattle.httparse.specs.Spans.{header_bytes, IsHeaderWithin};
ghost use Rattle.lrs_web_requests.specs.Sites as spec;
ghost use Rattle.lrs_web_requests.specs.Values.{summary_of};

use crate::framing::{Values, values_of};
use httparse::spans::HeaderSpan;

const SCHEME: &str = "http://";

fn is_local(host: &[u8]) -> bool
    ensures { result ≡ spec.is_local host.now }
{
    host == "127.0.0.1".as_bytes()
        || host.starts_with("127.0.0.1:".as_bytes())
        || host == "localhost".as_bytes()
        || host.starts_with("localhost:".as_bytes())
}

fn is_own_host(hosts: Values<'_>) -> bool
    ensures { result ≡ spec.is_own_host (summary_of hosts.entry) }
{
    match hosts {
        Values::Nothing => true,
        Values::One(host) => is_local(host),
        Values::Several => false,
    }
}

fn is_own_site(sites: Values<'_>) -> bool
    ensures { result ≡ spec.is_own_site (summary_of sites.entry) }
{
    match sites {
        Values::Nothing => true,
        Values::One(site) => site == "same-origin".as_bytes() || site == "none".as_bytes(),
        Values::Several => false,
    }
}

fn is_origin_of(host: &[u8], origin: &[u8]) -> bool
    ensures { result ≡ spec.is_origin_of host.now origin.now }
{
    if !origin.starts_with(SCHEME.as_bytes()) {
        return false;
    }
    &origin[SCHEME.len()..] == host
}

fn is_own_origin(hosts: Values<'_>, origins: Values<'_>) -> bool
    ensures { result ≡ spec.is_own_origin (summary_of hosts.entry) (summary_of origins.entry) }
{
    match (hosts, origins) {
        (_, Values::Nothing) => true,
        (Values::One(host), Values::One(origin)) => is_origin_of(host, origin),
        _ => false,
    }
}

/// Whether a request with these fields comes from no page, as one of curl, or from a page of this service. A name of elsewhere
/// that leads to this machine is not taken for it: a page of that name would pass for one of this service.
pub fn is_own(text: &[u8], fields: &[HeaderSpan]) -> bool
    requires { All (IsHeaderWithin (length text.now)) fields.now }
    ensures { result ≡ spec.is_own (map (header_bytes text.now) fields.now) }
{
    let hosts = values_of(text, fields, b"host");
    let sites = values_of(text, fields, b"sec-fetch-site");
    let origins = values_of(text, fields, b"origin");
    is_own_host(hosts) && is_own_site(sites) && is_own_origin(hosts, origins)
}
