// What the words of `node` ask for.

ghost use Rattle.std.specs.Prelude.{◌≡◌, true, IfOk, IfErr, OnOk, Ok, Err, None, Some};
ghost use Rattle.std.specs.Result.{OkIff};
ghost use Rattle.std.specs.Option.{option_map};
ghost use Rattle.rapid_options.specs.Options.{local_from, identifier_of, tags_of, endpoint_of, IsRefusal, AreRead, options_at};
ghost use Rattle.rapid_options.specs.declared.options.OptionsError.TheVariants.{NotLocal};
ghost use Rattle.rapid_transport.specs.Local.{is_local};

use rapid_config::Params;
use rapid_endpoint::{Endpoint, ParseError, ProcessId, Tags};
use rapid_transport::is_local;
use thiserror::Error;

/// How many milliseconds lie between two ticks if it is not said.
const DEFAULT_TICK_MS: u16 = 100;

/// The values of the options of `node`. The numbers are in their ranges.
#[derive(Clone, Copy, Debug)]
pub struct NodeWords<'a> {
    /// The value of `--listen`.
    pub listen: &'a str,
    /// The value of `--id`.
    pub id: Option<&'a str>,
    /// The value of `--tags`.
    pub tags: Option<&'a str>,
    /// The value of `--join`.
    pub join: Option<&'a str>,
    /// The number of rings.
    pub k: u8,
    /// With at least this many reports a process is stable.
    pub h: u8,
    /// With at least this many reports, and fewer than `h`, it is unstable.
    pub l: u8,
    /// How many milliseconds lie between two ticks; no ticker runs at 0.
    pub tick_ms: u16,
    /// How many threads probe the observed members, 1 to 16.
    pub probers: u8,
}

/// What the words of `node` ask for.
#[derive(Clone, Copy, Debug)]
pub struct NodeOptions {
    /// The endpoint of the node.
    pub listen: Endpoint,
    /// Its identifier; one is drawn if there is none.
    pub id: Option<ProcessId>,
    /// Its tags.
    pub tags: Tags,
    /// The endpoint of the seed by which it joins; it founds a cluster if there is none.
    pub join: Option<Endpoint>,
    /// K, H and L of a cluster that it founds.
    pub params: Params,
    /// How many milliseconds lie between two ticks; no ticker runs at 0.
    pub tick_ms: u16,
    /// How many threads probe the observed members, 1 to 16.
    pub probers: u8,
}

/// Why the words of `node` are refused.
#[derive(Clone, Copy, Debug, PartialEq, Eq, Error)]
pub enum OptionsError {
    /// K, H and L are not in order.
    #[error("K, H and L are not 1 <= L <= H <= K <= 16")]
    BadParams,
    /// An endpoint, the identifier or the tags cannot be read.
    #[error("{0}")]
    Unreadable(ParseError),
    /// An endpoint is not 127.x.x.x with a port from 1.
    #[error("an endpoint is not 127.x.x.x with a port from 1")]
    NotLocal,
}

impl NodeOptions {
    /// The options of a node at this endpoint. It founds a cluster with K = 10, H = 9 and L = 3,
    /// draws its identifier, and has no tags. It ticks every 100 milliseconds and probes in one
    /// thread. The other methods change these.
    ///
    /// # Errors
    ///
    /// `NotLocal` if the endpoint is not 127.x.x.x with a port from 1.
    pub fn at(listen: Endpoint) -> Result<NodeOptions, OptionsError>
        ensures ok { OkIff result (is_local listen ≡ true) (options_at listen) }
        ensures refused { IfErr result (λ e. e ≡ NotLocal) }
    {
        let Ok(params) = Params::new(10, 9, 3) else {
            unreachable!()
        };
        if !is_local(listen) {
            return Err(OptionsError::NotLocal);
        }
        Ok(NodeOptions {
            listen,
            id: None,
            tags: Tags::none(),
            join: None,
            params,
            tick_ms: DEFAULT_TICK_MS,
            probers: 1,
        })
    }

    /// The node joins a cluster by the member at this endpoint, in place of founding one.
    ///
    /// # Errors
    ///
    /// `NotLocal` if the endpoint is not 127.x.x.x with a port from 1.
    pub fn join(self, seed: Endpoint) -> Result<NodeOptions, OptionsError>
        ensures ok { OkIff result (is_local seed ≡ true) (record self { join = Some seed }) }
        ensures refused { IfErr result (λ e. e ≡ NotLocal) }
    {
        if !is_local(seed) {
            return Err(OptionsError::NotLocal);
        }
        Ok(NodeOptions {
            join: Some(seed),
            ..self
        })
    }

    /// The node has this identifier, which no node had before.
    pub fn identifier(self, id: ProcessId) -> NodeOptions
        ensures { result ≡ record self { id = Some id } }
    {
        NodeOptions {
            id: Some(id),
            ..self
        }
    }

    /// The node has these tags.
    pub fn tagged(self, tags: Tags) -> NodeOptions
        ensures { result ≡ record self { tags = tags } }
    {
        NodeOptions { tags, ..self }
    }

    /// A cluster that the node founds has this K, H and L.
    pub fn params(self, params: Params) -> NodeOptions
        ensures { result ≡ record self { params = params } }
    {
        NodeOptions { params, ..self }
    }

    /// This many milliseconds lie between two ticks of the node; at 0 nothing ticks it. All nodes
    /// of a cluster have the same number.
    pub fn tick_ms(self, tick_ms: u16) -> NodeOptions
        ensures { result ≡ record self { tick_ms = tick_ms } }
    {
        NodeOptions { tick_ms, ..self }
    }

    /// This many threads probe the observed members, 1 to 16.
    pub fn probers(self, probers: u8) -> NodeOptions
        ensures { result ≡ record self { probers = probers } }
    {
        NodeOptions { probers, ..self }
    }
}

/// The endpoint that a text spells, if a node can be at it.
fn local_endpoint(text: &str) -> Result<Endpoint, OptionsError>
    ensures { result ≡ local_from text.now }
{
    match Endpoint::parse(text) {
        Ok(endpoint) if is_local(endpoint) => Ok(endpoint),
        Ok(_) => Err(OptionsError::NotLocal),
        Err(fault) => Err(OptionsError::Unreadable(fault)),
    }
}

/// The endpoint that a text spells, if there is a text and a node can be at the endpoint.
fn seed(text: Option<&str>) -> Result<Option<Endpoint>, OptionsError>
    ensures { result ≡ endpoint_of (option_map (λ t. t.now) text.entry) }
{
    match text {
        None => Ok(None),
        Some(text) => match local_endpoint(text) {
            Ok(endpoint) => Ok(Some(endpoint)),
            Err(fault) => Err(fault),
        },
    }
}

/// The identifier that a text spells, if there is one.
fn identifier(text: Option<&str>) -> Result<Option<ProcessId>, OptionsError>
    ensures { result ≡ identifier_of (option_map (λ t. t.now) text.entry) }
{
    match text {
        None => Ok(None),
        Some(text) => match ProcessId::parse(text) {
            Ok(id) => Ok(Some(id)),
            Err(fault) => Err(OptionsError::Unreadable(fault)),
        },
    }
}

/// The tags that a text spells, or none if there is no text.
fn tags(text: Option<&str>) -> Result<Tags, OptionsError>
    ensures { result ≡ tags_of (option_map (λ t. t.now) text.entry) }
{
    match text {
        None => Ok(Tags::none()),
        Some(text) => match Tags::parse(text) {
            Ok(tags) => Ok(tags),
            Err(fault) => Err(OptionsError::Unreadable(fault)),
        },
    }
}

/// Judges the words of `node`.
///
/// # Errors
///
/// The first that holds. `BadParams` if K, H and L are not in order. `Unreadable` or `NotLocal` of
/// the endpoint after `--listen`, then of that after `--join`. `Unreadable` of the identifier, then
/// of the tags.
pub fn judge(words: NodeWords) -> Result<NodeOptions, OptionsError>
    ensures texts { IfOk result (λ o. AreRead words.entry.listen.now (option_map (λ t. t.now) words.entry.join) (option_map (λ t. t.now) words.entry.id) (option_map (λ t. t.now) words.entry.tags) o.listen o.join o.id o.tags) }
    ensures params { IfOk result (λ o. o.params ≡ record { k = words.entry.k; h = words.entry.h; l = words.entry.l }) }
    ensures tick { IfOk result (λ o. o.tick_ms ≡ words.entry.tick_ms) }
    ensures probers { IfOk result (λ o. o.probers ≡ words.entry.probers) }
    ensures refused { IfErr result (IsRefusal (record { k = words.entry.k; h = words.entry.h; l = words.entry.l }) words.entry.listen.now (option_map (λ t. t.now) words.entry.join) (option_map (λ t. t.now) words.entry.id) (option_map (λ t. t.now) words.entry.tags)) }
{
    let NodeWords {
        listen,
        id,
        tags: words_of_tags,
        join,
        k,
        h,
        l,
        tick_ms,
        probers,
    } = words;
    let Ok(params) = Params::new(k, h, l) else {
        return Err(OptionsError::BadParams);
    };
    let listen = local_endpoint(listen)?;
    let join = seed(join)?;
    let id = identifier(id)?;
    match tags(words_of_tags) {
        Ok(tags) => Ok(NodeOptions {
            listen,
            id,
            tags,
            join,
            params,
            tick_ms,
            probers,
        }),
        Err(fault) => Err(fault),
    }
}
