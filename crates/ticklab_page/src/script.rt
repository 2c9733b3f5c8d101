// The script of every page.

/// The script up to its last lines. It replays the changes of the steps, up to the one that was chosen.
pub const SCRIPT: &str = "<script>'use strict';
(function () {
  var by = function (id) { return document.getElementById(id); };
  var run = by('run'), steps = by('steps').querySelectorAll('[id]'), lines = by('program').children, from = Number(by('program').dataset.first);
  var changes = by('changes').textContent.split(';');
  var items = Array.prototype.slice.call(by('steps').querySelectorAll('a,summary'));
  var last = steps.length - 1, now = -1, at = 0, marks = null, events = 0, turns = {}, stop = null, shown = null;
  var rows = {}, seen = {}, fresh = [];
  by('state').querySelectorAll('[data-k]').forEach(function (row) { rows[row.dataset.k] = row.cells; });
  var start = {};
  Object.keys(rows).forEach(function (key) {
    start[key] = Array.prototype.slice.call(rows[key], 1).map(function (cell) { return cell.textContent; });
  });
  function begin() {
    seen = {};
    Object.keys(start).forEach(function (key) { seen[key] = start[key].slice(); });
    at = 0;
  }
  function set(key, p, value) {
    if (seen[key][p] !== value) { seen[key][p] = value; fresh.push(key + ' ' + p); }
  }
  function setAll(key, values) { values.forEach(function (value, p) { set(key, p, value); }); }
  function ranks(step) {
    var order = /, order ([-0-9 ]+)$/.exec(steps[step].textContent);
    if (order === null) { return seen.o; }
    return order[1].split(' ');
  }
  function replay(step) {
    var parts = changes[step - 1].trim().split(' '), p = Number(parts[0]), n = seen.s.length, i = 2;
    fresh = [];
    if (parts[1] !== '0') { set('at', p, String(Number(parts[1]) - 1 + from)); }
    while (i < parts.length) {
      var what = parts[i];
      if (what === 't') { setAll('t', parts.slice(i + 1, i + 1 + n)); setAll('o', ranks(step)); i += 1 + n; }
      else if (what[0] === 'c') { set(what, p, (from === 0 ? seen.t : seen.o).join(' ')); i += 1; }
      else if (what[0] === 'd') { set('c' + what.slice(1), p, seen['c' + parts[i + 1]][p]); i += 2; }
      else { set(what, p, parts[i + 1]); i += 2; }
    }
  }
  function fill() {
    Object.keys(rows).forEach(function (key) {
      seen[key].forEach(function (value, p) {
        var cell = rows[key][p + 1];
        if (cell.textContent !== value) { cell.textContent = value; }
        cell.className = '';
      });
    });
    fresh.forEach(function (one) {
      var parts = one.split(' ');
      rows[parts[0]][Number(parts[1]) + 1].className = 'new';
    });
  }
  function mark(all, one) {
    Array.prototype.slice.call(all.getElementsByClassName('here')).forEach(function (old) {
      old.classList.remove('here'); old.removeAttribute('aria-current');
    });
    if (one) { one.classList.add('here'); one.setAttribute('aria-current', 'step'); }
  }
  function bring(box, one) {
    if (!one) { return; }
    var outer = box.getBoundingClientRect(), inner = one.getBoundingClientRect();
    if (inner.top < outer.top || inner.bottom > outer.bottom) { box.scrollTop += inner.top - outer.top - box.clientHeight / 2; }
    if (inner.left < outer.left || inner.left > outer.right) { box.scrollLeft += inner.left - outer.left - 40; }
  }
  function told(p) {
    var line = seen.at[p];
    return line !== '-' && lines[Number(line) - from];
  }
  function list() {
    Array.prototype.slice.call(by('program').querySelectorAll('[data-at]')).forEach(function (old) { old.removeAttribute('data-at'); });
    seen.at.forEach(function (line, p) {
      var one = told(p);
      if (one) { one.dataset.at = ((one.dataset.at || '') + ' P' + p).trim(); }
    });
    var one = now !== 0 && told(Number(changes[now - 1].trim().split(' ')[0]));
    mark(by('program'), one);
    bring(by('program').parentNode, one);
  }
  function stepOf(group) {
    var title = group.querySelector('title');
    if (title === null) { return -1; }
    return Number(title.textContent.split(':')[0].split(' ')[1]);
  }
  function markOf(step) {
    if (marks === null) {
      marks = {};
      by('picture').querySelectorAll('g[id^=mark-]').forEach(function (group) {
        marks[stepOf(group)] = group;
        events = Math.max(events, stepOf(group));
      });
    }
    return marks[step] || null;
  }
  function processOf(step) { return parseInt(changes[step - 1], 10); }
  function unfold(step) {
    var row = steps[step].closest('details');
    if (shown !== null && shown !== row) { shown.open = Boolean(shown.kept); }
    if (row !== null) { row.open = true; }
    shown = row;
  }
  function stopAt(item) {
    if (stop !== null) { stop.tabIndex = -1; }
    stop = item;
    stop.tabIndex = 0;
    if (by('steps').contains(document.activeElement)) { stop.focus({preventScroll: true}); }
  }
  function show(step) {
    step = Math.max(0, Math.min(last, step));
    if (step === now) { return; }
    if (step < at || at > step) { begin(); }
    if (step === 0) { fresh = []; }
    while (at < step) { at += 1; replay(at); }
    now = step;
    fill();
    list();
    unfold(step);
    mark(by('steps'), steps[step]);
    stopAt(steps[step].firstChild);
    bring(by('steps').parentNode, steps[step]);
    mark(by('picture'), markOf(step));
    by('said').textContent = 'Step ' + step + ' of ' + last + ': ' + steps[step].textContent.trim().replace(/^[0-9]+ +/, '').replace(/ +/g, ' ');
    by('first').disabled = by('back').disabled = step === 0;
    by('forth').disabled = by('last').disabled = step === last;
    by('event').disabled = step >= events;
    by('own').disabled = step === 0 || step >= turns[processOf(step)];
    run.dataset.now = step;
  }
  function go(step) {
    show(step);
    try { history.replaceState(null, '', '#step-' + now); } catch (refused) { location.hash = '#step-' + now; }
  }
  function asked() {
    var found = /^#step-([0-9]+)$/.exec(location.hash);
    if (found === null) { return Number(run.dataset.open); }
    return Number(found[1]);
  }
  by('first').onclick = function () { go(0); };
  by('back').onclick = function () { go(now - 1); };
  by('forth').onclick = function () { go(now + 1); };
  by('last').onclick = function () { go(last); };
  function next(fits) {
    var step = now + 1;
    while (step < last && !fits(step)) { step += 1; }
    go(step);
  }
  by('event').onclick = function () { next(function (step) { return markOf(step) !== null; }); };
  by('own').onclick = function () {
    var p = processOf(now);
    next(function (step) { return processOf(step) === p; });
  };
  if (by('rows') !== null) {
    by('rows').onclick = function () {
      var open = by('rows').getAttribute('aria-pressed') !== 'true';
      by('rows').setAttribute('aria-pressed', open);
      by('steps').querySelectorAll('details').forEach(function (row) { row.open = row.kept = open; });
    };
  }
  by('steps').addEventListener('toggle', function (event) {
    if (!event.target.open && event.target.contains(stop)) { stopAt(event.target.firstChild); }
  }, true);
  by('steps').onclick = function (event) {
    var link = event.target.closest('a'), head = event.target.closest('summary');
    if (link !== null) { event.preventDefault(); go(Number(link.getAttribute('href').slice(6))); }
    if (head !== null) { head.parentNode.kept = !head.parentNode.open; }
  };
  by('picture').onclick = function (event) {
    var group = event.target.closest('g[id^=mark-]');
    if (group !== null) { go(stepOf(group)); }
  };
  function isHidden(item) {
    var row = item.closest('details');
    return item.nodeName === 'A' && row !== null && !row.open;
  }
  function beside(item, way) {
    var k = items.indexOf(item) + way;
    while (0 <= k && k < items.length && isHidden(items[k])) { k += way; }
    return items[k] || item;
  }
  function goBeside(way) {
    var item = beside(document.activeElement, way);
    if (item.nodeName === 'A') { go(Number(item.getAttribute('href').slice(6))); }
    stopAt(item);
  }
  var keys = {
    ArrowLeft: function () { go(now - 1); },
    ArrowRight: function () { go(now + 1); },
    ArrowUp: function () { goBeside(-1); },
    ArrowDown: function () { goBeside(1); },
    Home: function () { go(0); },
    End: function () { go(last); },
  };
  function isOthers(key, target) {
    if (key === 'ArrowUp' || key === 'ArrowDown') { return !by('steps').contains(target); }
    return key.slice(0, 5) === 'Arrow' && target.classList.contains('box');
  }
  document.onkeydown = function (event) {
    if (event.altKey || event.ctrlKey || event.metaKey || event.shiftKey) { return; }
    if (keys[event.key] === undefined || isOthers(event.key, event.target)) { return; }
    event.preventDefault();
    keys[event.key]();
  };
  window.onhashchange = function () { show(asked()); };
  Array.prototype.slice.call(document.querySelectorAll('[data-live]')).forEach(function (one) { one.hidden = false; });
";

/// What stands between on a page of a run that goes round for ever. Round again compares the table after the round with the
/// table before it, and says in what they differ, but not in tickets, which may be other numbers in the same order, nor in
/// where a process made its last step.
pub const ROUNDS: &str = "  var first = Number(run.dataset.loop), plain = show;
  function stateAt(step) {
    begin();
    while (at < step) { at += 1; replay(at); }
    return seen;
  }
  function differences() {
    var before = stateAt(first), after = stateAt(last), found = [];
    Object.keys(before).forEach(function (key) {
      if (key === 't' || key === 'at') { return; }
      before[key].forEach(function (value, p) {
        if (after[key][p] !== value) { found.push(rows[key][0].textContent + ' of P' + p); }
      });
    });
    return found;
  }
  function compared() {
    var found = differences(), steps = 'After step ' + last;
    if (found.length === 0) { return steps + ' each status, rank, register, scan and variable is as it was after step ' + first + '.'; }
    return steps + ' this is not as it was after step ' + first + ': ' + found.join(', ') + '.';
  }
  show = function (step) {
    by('round').textContent = '';
    plain(step);
    by('loop').disabled = now === first;
  };
  by('loop').onclick = function () { go(first); };
  by('again').onclick = function () {
    go(first);
    by('round').textContent = compared();
  };
";

/// The last lines of the script, and the end of the page.
pub const SCRIPT_END: &str =
    "  for (var step = 1; step <= last; step += 1) { turns[processOf(step)] = step; }
  items.forEach(function (item) { item.tabIndex = -1; });
  by('steps').parentNode.removeAttribute('tabindex');
  begin();
  show(asked());
  window.onload = function () { setTimeout(function () { window.scrollTo(0, 0); }, 0); };
})();
</script>
</body>
</html>
";
